// What tests ask.
use std::process::Abort;

// Both are the same.
pub fn same<T: Copy + PartialEq>(rt: &impl Abort, got: T, want: T) {
    assert!(rt; got == want);
}

// Both are the same for this text, which is told where they aren't.
pub fn same_for<T: Copy + PartialEq>(rt: &impl Abort, text: &[u8], got: T, want: T) {
    assert!(rt;
        got == want,
        "for {}",
        str::from_utf8(text).unwrap_or("other bytes")
    );
}
