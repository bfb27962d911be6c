// The first example, and its two texts.

pub const SCRIPT: &[u8] = b"LOGIN 0 SMITH\n\
    POKE 0 100 201040000101\n\
    POKE 0 101 104000000074\n\
    POKE 0 102 104000000170\n\
    START 0 100\n\
    RUN 5\n";

pub const TRANSCRIPT: &[u8] = b"T0 @A\\015\\012\nT0 @\n";

pub const RECORD: &[u8] = b"LOGIN 0 SMITH\n\
    POKE 0 100 201040000101\n\
    POKE 0 101 104000000074\n\
    POKE 0 102 104000000170\n\
    START 0 100\n\
    U 0 1 3\n\
    I 2\n\
    E 0 0\n";
