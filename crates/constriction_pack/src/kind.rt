//! The kinds of contents.

ghost use Rattle.std.specs.Prelude.{◌≡◌, Some, IfSome};
ghost use Rattle.constriction_pack.specs.Contents.{kind_number};

/// What the content of a block is.
#[derive(Debug, Clone, Copy, PartialEq, Eq)]
pub enum Kind {
    /// 0: the bytes of the block, from none to 2^23.
    Stored,
    /// 1: how many bytes the block has, in four bytes, and the byte that each of them is.
    Repeated,
    /// 2: how many bytes the block has, in four bytes; one less than the number of weights, in one;
    /// the weights of the bytes 0, 1, .. up to the greatest one, each less one in LEB128; and the
    /// words of the stack coder at `PRECISION` 16, four bytes each. The weights are not 0 and add
    /// up to 65,536. The coder held nothing before, and has the block's first byte on top.
    Weighted,
    /// 3: how many bytes the block has, in four bytes, and the words of a range coder, four bytes
    /// each. They have the bits of the bytes, the highest of each first, as a `Mixer` of two
    /// contexts predicts them that learned nothing before. Its parameters stand beside this type.
    FewContexts,
    /// 4: the same by a `Mixer` of six contexts.
    ManyContexts,
    /// 5: parts to the content's end, each of at most 2^18 bytes of the block, and of at least one
    /// for each of its sequences. A part has how many literals and how many sequences it has, in
    /// four bytes each, and six [planes](crate::plane): the literals; and of each [`Sequence`] how
    /// many literals it takes, how many bytes it copies, and the three bytes of its number. It
    /// begins with the recent distances that the part before it left.
    ///
    /// [`Sequence`]: constriction_matches::Sequence
    Matched,
}

/// The parameters of the mixers, as `Mixer::new` takes them.
pub(crate) const FEW_CONTEXTS: [u32; 2] = [2, 0];

pub(crate) const FEW_GROUPS: u32 = 131_072;

pub(crate) const FEW_FOLLOWERS: usize = 1_048_576;

pub(crate) const FEW_REACH: u32 = 5;

pub(crate) const MANY_CONTEXTS: [u32; 6] = [1, 2, 3, 4, 6, 0];

pub(crate) const MANY_GROUPS: u32 = 1_048_576;

pub(crate) const MANY_FOLLOWERS: usize = 4_194_304;

pub(crate) const MANY_REACH: u32 = 8;

impl Kind {
    /// The number that stands for the kind in a file.
    pub(crate) fn number(self) -> u8
        ensures { result ≡ kind_number self }
    {
        match self {
            Kind::Stored => 0,
            Kind::Repeated => 1,
            Kind::Weighted => 2,
            Kind::FewContexts => 3,
            Kind::ManyContexts => 4,
            Kind::Matched => 5,
        }
    }

    /// The kind that this number stands for.
    pub(crate) fn of_number(number: u8) -> Option<Kind>
        ensures some { IfSome result (λ kind. kind_number kind ≡ number) }
        ensures none { (kind : Kind) → kind_number kind ≡ number → result ≡ Some kind }
    {
        match number {
            0 => Some(Kind::Stored),
            1 => Some(Kind::Repeated),
            2 => Some(Kind::Weighted),
            3 => Some(Kind::FewContexts),
            4 => Some(Kind::ManyContexts),
            5 => Some(Kind::Matched),
            _ => None,
        }
    }
}
