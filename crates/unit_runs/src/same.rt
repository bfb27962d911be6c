use std::fmt::Debug;
use std::process::Abort;

// Both are the same.
pub fn same<T: Copy + PartialEq>(rt: &impl Abort, got: T, want: T) {
    assert!(rt; got == want);
}

// Both are the same, in the row of a table that this tells.
pub fn same_at<A: Copy + Debug, T: Copy + PartialEq>(rt: &impl Abort, row: A, got: T, want: T) {
    assert!(rt; got == want, "at {row:?}");
}
