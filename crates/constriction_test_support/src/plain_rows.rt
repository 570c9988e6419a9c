//! The rows that symbol tables and look-ups give, with weights as plain words.

use constriction::stream::model::Weight;
use constriction_words::WholeNumber;
use std::alloc::AllocError;

/// What a step of a symbol table gives.
pub type Step<Word> = Option<Result<(usize, Word, Weight<Word>), AllocError>>;

/// The row of a step, with its weight as a plain word.
pub fn row<Word: WholeNumber>(step: Step<Word>) -> Option<(usize, Word, Word)> {
    match step {
        Some(Ok((symbol, left, weight))) => Some((symbol, left, Word::from_weight(weight))),
        _ => None,
    }
}
