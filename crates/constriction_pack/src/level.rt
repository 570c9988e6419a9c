//! How hard packing tries.

use constriction_matches::Effort;

/// Which kinds of contents [`pack`](crate::pack) tries. Its blocks have 2^23 bytes, and the last
/// one may have fewer.
#[derive(Debug, Clone, Copy, PartialEq, Eq)]
pub enum Level {
    /// Matches that are found with little effort.
    Fast,
    /// Matches that are found with much effort.
    Default,
    /// The same, or bits that are predicted by two contexts or by six: what is shortest. Packing
    /// and unpacking take 36 MiB for these.
    Best,
}

impl Level {
    /// How hard matches are looked for.
    pub(crate) fn effort(self) -> Effort {
        match self {
            Level::Fast => Effort::Little,
            Level::Default | Level::Best => Effort::Much,
        }
    }
}
