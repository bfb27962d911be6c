/// The processor's flags (PDP-10 handbook, "Program flags"). Each stays as it is until an
/// operation sets it or an instruction clears it.
#[derive(Clone, Copy, PartialEq, Eq)]
pub struct Flags {
    /// An arithmetic result was no signed word.
    pub overflow: bool,
    /// There was a carry out of bit 0.
    pub carry0: bool,
    /// There was a carry out of bit 1.
    pub carry1: bool,
    /// A floating result was out of range.
    pub fov: bool,
    /// The first part of a byte instruction is done.
    pub bis: bool,
    /// A division was not done.
    pub nodiv: bool,
}

impl Flags {
    /// No flag is set.
    pub const CLEAR: Flags = Flags {
        overflow: false,
        carry0: false,
        carry1: false,
        fov: false,
        bis: false,
        nodiv: false,
    };
}
