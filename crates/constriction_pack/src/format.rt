//! The formats of packed files.

ghost use Rattle.std.specs.Prelude.{◌≡◌, ◌↔◌, ℕ, List, Some, IfSome, IsTrue};
ghost use Rattle.constriction_pack.specs.Contents.{IsContent};
ghost use Rattle.constriction_pack.specs.Formats.{IsAdmitted, signature};
ghost use Rattle.constriction_pack.specs.Frames.{first_hash};

use crate::frame::{OFFSET_BASIS, hash_of};
use crate::kind::Kind;
use crate::predicted::has_enough_words;

/// How many bytes a signature has.
pub(crate) const SIGNATURE: usize = 8;

/// A format of packed files.
#[derive(Debug, Clone, Copy, PartialEq, Eq)]
pub(crate) enum Format {
    /// Contents by contexts may have few words, and take long to decode; none is by matches.
    Cpk2,
    /// What [`pack`](crate::pack) writes.
    Cpk3,
}

impl Format {
    /// What files of the format begin with.
    pub(crate) fn signature(self) -> &'static [u8]
        ensures { result.now ≡ signature self }
    {
        match self {
            Format::Cpk2 => b"cpk2\r\n\x1a\n",
            Format::Cpk3 => b"cpk3\r\n\x1a\n",
        }
    }

    /// The format with this signature.
    pub(crate) fn of_signature(bytes: &[u8]) -> Option<Format>
        ensures some { IfSome result (λ format. bytes.now ≡ signature format) }
        ensures none { (format : Format) → bytes.now ≡ signature format → result ≡ Some format }
    {
        if bytes == Format::Cpk3.signature() {
            Some(Format::Cpk3)
        } else if bytes == Format::Cpk2.signature() {
            Some(Format::Cpk2)
        } else {
            None
        }
    }

    /// The hash before the first frame.
    pub(crate) fn first_hash(self) -> u64
        ensures { result ≡ first_hash self }
    {
        match self {
            Format::Cpk2 => OFFSET_BASIS,
            Format::Cpk3 => hash_of(OFFSET_BASIS, self.signature()),
        }
    }

    /// Whether the format has this content, if any block has it.
    pub(crate) fn admits(self, kind: Kind, content: &[u8]) -> bool
        ensures { (block : List ℕ) → IsContent kind block content.now
            → IsTrue result ↔ IsAdmitted self kind block content.now }
    {
        match (self, kind) {
            (Format::Cpk3, Kind::FewContexts) => has_enough_words(content),
            (Format::Cpk3, Kind::ManyContexts) => has_enough_words(content),
            (Format::Cpk2, Kind::Matched) => false,
            _ => true,
        }
    }
}
