// What tests ask.
use std::process::Abort;

// Both are the same.
pub fn same<T: Copy + PartialEq>(rt: &impl Abort, got: T, want: T) {
    assert!(rt; got == want);
}
