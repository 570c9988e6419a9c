//! A symbol type that refuses to clone one of its values, and a model over it.

ghost use Rattle.std.specs.Prelude.{◌≡◌};

use crate::conversions::Decoder;
use constriction::stream::model::ModelError;
use std::alloc::{AllocError, Global};

/// A letter. A clone of `r` fails, as if memory were refused.
#[derive(Debug, PartialEq, Eq, Hash, Drop)]
pub struct Letter(pub char);

impl Clone for Letter {
    ghost is_clone = { λ x y. y ≡ x };

    fn clone(&self) -> Result<Letter, AllocError> {
        if self.0 == 'r' {
            return Err(AllocError);
        }
        Ok(Letter(self.0))
    }
}

pub type LetterDecoder = Decoder<Letter, 6>;

/// The model of `a`, `r` and `c`.
pub fn letters(alloc: Global) -> Result<LetterDecoder, ModelError> {
    LetterDecoder::from_symbols_and_nonzero_fixed_point_probabilities(
        alloc,
        [Letter('a'), Letter('r'), Letter('c')],
        [16, 32, 16],
        false,
    )
}
