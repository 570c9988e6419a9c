//! What follows from the steps of sources over iterators.

ghost use Rattle.constriction_sources.specs.Items.{EndIsForGood};

use crate::iterators::{FallibleIteratorReadWords, InfallibleIteratorReadWords};
use crate::read::ReadWords;
use constriction_words::Semantics;
use std::fmt::Debug;

/// After a source over an iterator of words has answered `Ok(None)`, each later read does, whatever
/// the iterator would give.
pub fn word_end_is_for_good<Word, S: Semantics, Iter: Iterator<Item = Word>>()
    ensures { EndIsForGood ⟦<InfallibleIteratorReadWords<Iter> as ReadWords<Word, S>>⟧.read_gives }
{}

/// The same for a source over an iterator of words and errors.
pub fn item_end_is_for_good<
    Word,
    ReadError: Debug,
    S: Semantics,
    Iter: Iterator<Item = Result<Word, ReadError>>,
>()
    ensures { EndIsForGood ⟦<FallibleIteratorReadWords<Iter> as ReadWords<Word, S>>⟧.read_gives }
{}
