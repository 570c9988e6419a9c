//! A model of the caller's own: its rows, its answers to a symbol and to a quantile, and its symbol
//! table.

ghost use Rattle.std.specs.Prelude.{◌≡◌, ◌-◌, ◌∷◌, [], drop, nat_eq};
ghost use Rattle.std.specs.Iterator.{at_most};
ghost use Rattle.std.specs.Cmp.{nat_eq_equiv};
ghost use Rattle.std.proofs.Common.{lit<, lit≤, refl, rules};
ghost use Rattle.std.proofs.lemmas.Grind.{common_steps};
ghost use Rattle.constriction.specs.Rows.{rows_of};
ghost use Rattle.constriction.specs.Tables.{YieldsRow};

use constriction::stream::model::{
    DecoderModel, EncoderModel, EntropyModel, IterableEntropyModel, Weight,
};
use constriction_words::{BitArray, WholeNumber};
use std::alloc::AllocError;

/// A model of three letters, which need not differ. The first has the quantiles 0 and 1, the second
/// 2 to 6, the third 7.
#[derive(Drop)]
pub struct Triple {
    first: char,
    second: char,
    third: char,
}

impl EntropyModel<3> for Triple {
    type Symbol = char;

    type Probability = u8;

    ghost rows = { λ m. rows_of (m.first ∷ m.second ∷ m.third ∷ []) (2 ∷ 5 ∷ 1 ∷ []) };

    ghost precision_law = { λ _. record { positive = lit< tt; fits = lit≤ tt } };
}

/// A letter has the entry of its last row.
impl EncoderModel<3> for Triple {
    ghost symbol_eq = { nat_eq };

    fn left_cumulative_and_probability(&self, symbol: &char) -> Option<(u8, Weight<u8>)> {
        if self.third == *symbol {
            return Some((7, 1u8.into_nonzero_unchecked()));
        }
        if self.second == *symbol {
            return Some((2, 5u8.into_nonzero_unchecked()));
        }
        if self.first == *symbol {
            return Some((0, 2u8.into_nonzero_unchecked()));
        }
        None
    }

    ghost equality_law = { nat_eq_equiv };

    ghost within_law = { λ m. Prim.search rules };
}

/// The quantile is compared with where the rows begin.
impl DecoderModel<3> for Triple {
    ghost stands_for = { λ s t. t ≡ s };

    ghost may_refuse = { λ _. ⊥ };

    fn quantile_function(&self, quantile: u8) -> Result<(char, u8, Weight<u8>), AllocError> {
        if quantile < 2 {
            return Ok((self.first, 0, 2u8.into_nonzero_unchecked()));
        }
        if quantile < 7 {
            return Ok((self.second, 2, 5u8.into_nonzero_unchecked()));
        }
        Ok((self.third, 7, 1u8.into_nonzero_unchecked()))
    }

    ghost tile_law = { λ m. record {
      accepted = record {
        tiles = record { positive = Prim.search (rules, common_steps); total = refl };
        fit = Prim.search (rules, common_steps);
      };
      in_order = refl;
    } };
}

/// The model of these letters.
pub fn three(first: char, second: char, third: char) -> Triple {
    Triple {
        first,
        second,
        third,
    }
}

/// The symbol table of a `Triple`. Its rows from the index `next` on are left.
#[derive(Drop)]
pub struct TripleSymbolTable<'m> {
    model: &'m Triple,
    next: usize,
}

impl<'m> Iterator for TripleSymbolTable<'m> {
    type Item = Result<(char, u8, Weight<u8>), AllocError>;

    ghost next_gives = { YieldsRow (λ s t. t ≡ s) (λ _. ⊥) ⟦<u8 as WholeNumber>⟧.whole
        ⟦<u8 as WholeNumber>⟧.base (λ t.
        drop t.next (⟦<Triple as EntropyModel<3>>⟧.rows t.model.now)) };

    ghost remaining = { λ t. at_most (3 - t.next) };

    fn next(&mut self) -> Option<Result<(char, u8, Weight<u8>), AllocError>> {
        let row = match self.next {
            0 => (self.model.first, 0, 2u8.into_nonzero_unchecked()),
            1 => (self.model.second, 2, 5u8.into_nonzero_unchecked()),
            2 => (self.model.third, 7, 1u8.into_nonzero_unchecked()),
            _ => return None,
        };
        self.next += 1;
        Some(Ok(row))
    }
}

impl<'m> IterableEntropyModel<3> for &'m Triple {
    type SymbolTable = TripleSymbolTable<'m>;

    ghost stands_for = { λ s t. t ≡ s };

    ghost may_refuse = { λ _. ⊥ };

    ghost rows_left = { λ t. drop t.next (⟦<Triple as EntropyModel<3>>⟧.rows t.model.now) };

    fn symbol_table(self) -> TripleSymbolTable<'m> {
        TripleSymbolTable {
            model: self,
            next: 0,
        }
    }

    ghost steps_law = { λ t r u step. step };

    ghost tile_law = { λ m. record {
      accepted = record {
        tiles = record { positive = Prim.search (rules, common_steps); total = refl };
        fit = Prim.search (rules, common_steps);
      };
      in_order = refl;
    } };
}
