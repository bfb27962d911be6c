use std::process::Abort;

// Both are the same.
pub fn same<T: Copy + PartialEq>(rt: &impl Abort, got: T, want: T) {
    assert!(rt; got == want);
}

// Both are the same in a row of a table, which is told where they are not.
pub fn same_at<T: Copy + PartialEq>(rt: &impl Abort, row: u64, got: T, want: T) {
    assert!(rt; got == want, "at {row}");
}
