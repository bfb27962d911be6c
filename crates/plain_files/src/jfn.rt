// How files are open.
use machine_names::FileNo;

/// How a file is open.
#[derive(Clone, Copy)]
pub struct Mode {
    pub r: bool,
    pub w: bool,
}

/// What a JFN stands for (JSYS Manual, "File handling"): a file, how it is open, and the position
/// in it, in bytes of the given size, 1 to 36 bits.
#[derive(Clone, Copy)]
pub struct Jfn {
    pub file: FileNo,
    pub mode: Option<Mode>,
    pub at: u64,
    pub size: u8,
}
