//! The stored entries of rows, and a probe of them.

ghost use Rattle.std.specs.Prelude.{◌≡◌, ℕ, map};

use constriction_model::Probe;
use constriction_numbers::WholeNumber;
use std::marker::PhantomData;

/// How the cumulative of a stored entry is read.
pub trait CdfEntry<Entry> {
    /// The words of cumulatives.
    type Word: WholeNumber;

    // The cumulative of an entry.
    ghost cumulative: { Entry → ℕ };

    /// The cumulative of an entry.
    fn cumulative_of(entry: &Entry) -> Self::Word
        ensures { Self.Word.whole result ≡ cumulative entry.now };
}

/// Entries that are a cumulative alone, as contiguous models store them.
#[derive(Drop)]
pub struct Cumulative;

impl<Number: WholeNumber> CdfEntry<Number> for Cumulative {
    type Word = Number;

    ghost cumulative = { Number.whole };

    #[inline]
    fn cumulative_of(entry: &Number) -> Number {
        *entry
    }
}

/// Entries that are a cumulative and the symbol of its row.
#[derive(Drop)]
pub struct CumulativeAndSymbol;

impl<Number: WholeNumber, Symbol> CdfEntry<(Number, Symbol)> for CumulativeAndSymbol {
    type Word = Number;

    ghost cumulative = { λ x. Number.whole x.0 };

    #[inline]
    fn cumulative_of(entry: &(Number, Symbol)) -> Number {
        entry.0
    }
}

/// A probe of consecutive rows of a model, over a loan of the stored entries.
#[derive(Drop)]
pub struct CdfProbe<'c, Entry, Kind: CdfEntry<Entry>> {
    entries: &'c [Entry],
    asked: usize,
    kind: PhantomData<Kind>,
}

impl<'c, Entry, Kind: CdfEntry<Entry>> CdfProbe<'c, Entry, Kind> {
    /// A probe of these entries, which was asked nothing yet.
    #[inline]
    pub fn new(entries: &'c [Entry]) -> Self
        ensures cumulatives { ⟦<Self as Probe>⟧.cumulatives result
            ≡ map Kind.cumulative entries.now }
        ensures fresh { ⟦<Self as Probe>⟧.questions result ≡ 0 }
    {
        Self {
            entries,
            asked: 0,
            kind: PhantomData,
        }
    }
}

impl<'c, Entry, Kind: CdfEntry<Entry>> Probe for CdfProbe<'c, Entry, Kind> {
    type Word = Kind::Word;

    ghost number = { Kind.Word.whole };

    ghost cumulatives = { λ p. map Kind.cumulative p.entries.now };

    ghost questions = { λ p. p.asked };

    #[inline]
    fn len(&self) -> usize {
        self.entries.len()
    }

    #[inline]
    fn asked(&self) -> usize {
        self.asked
    }

    #[inline]
    fn at_most(&mut self, index: usize, q: Kind::Word) -> bool {
        self.asked += 1;
        Kind::cumulative_of(&self.entries[index]).is_at_most(q)
    }
}
