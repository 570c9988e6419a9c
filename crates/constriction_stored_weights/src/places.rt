//! Places in bytes that are read and written bit by bit, the highest bit of each byte first.

ghost use Rattle.std.specs.Prelude.{◌^◌, ◌<◌};

/// Where the next bit is that is read.
#[derive(Clone, Copy)]
pub(crate) struct ReadPlace {
    /// The number of bytes of which a bit was read.
    pub next: usize,
    /// The last of these bytes.
    pub byte: u8,
    /// How many of its bits were not read.
    pub left: u32,
    ghost within: { left < 8 },
}

/// The bits that do not fill a byte yet.
#[derive(Clone, Copy)]
pub(crate) struct WritePlace {
    pub byte: u8,
    /// How many bits there are.
    pub filled: u32,
    ghost within: { filled < 8 },
    ghost small: { byte < 2 ^ filled },
}
