//! Contiguous models that get other weights, and models over a cdf of the caller. No caller here
//! has a written answer.

ghost use Rattle.std.specs.Prelude.{◌≡◌, ◌^◌, ◌<◌, ℕ, List, IfSome, IsSomeAnd, IsTrue, false, length};
ghost use Rattle.constriction.specs.Acceptance.{IsAccepted};
ghost use Rattle.constriction.specs.Cdf.{IsCdfOfWeights};
ghost use Rattle.constriction.specs.ModelRows.{contiguous_model_rows};
ghost use Rattle.constriction.specs.Precision.{IsPrecision};
ghost use Rattle.constriction.specs.Rows.{contiguous_rows};

use crate::checks::{same, same_at};
use crate::model_checks::small;
use constriction::stream::model::{ContiguousCategoricalEntropyModel, DecoderModel, ModelError};
use constriction_test_support::contiguous::Small;
use std::process::Abort;

/// A model over a cdf that it borrows.
type Over<'c, const PRECISION: usize> = ContiguousCategoricalEntropyModel<u8, &'c [u8], PRECISION>;

/// Gives a model other weights for its symbols. Memory cannot be refused.
fn reweigh(model: &mut Small, weights: &[u8]) -> bool
    requires { length weights.now ≡ length (contiguous_model_rows model.old) }
    ensures accepted { IsTrue result → IsAccepted 8 6 weights.now }
    ensures rows { IsTrue result → contiguous_model_rows model.new ≡ contiguous_rows weights.now }
    ensures invalid { result ≡ false → ¬ (IsAccepted 8 6 weights.now) }
    ensures refused { result ≡ false
        → contiguous_model_rows model.new ≡ contiguous_model_rows model.old }
{
    match model.set_weights(weights, false) {
        Ok(()) => true,
        Err(ModelError::InvalidTable) => false,
        Err(ModelError::OutOfMemory) => unreachable!(),
    }
}

/// The symbol of a quantile. It is below `support_size`.
fn symbol_of(model: &Small, quantile: u8) -> usize
    requires { quantile < 2 ^ 6 }
    ensures { result < length (contiguous_model_rows model.now) }
{
    match model.quantile_function(quantile) {
        Ok((symbol, _, _)) => symbol,
        Err(_) => unreachable!(),
    }
}

/// The model over a cdf, or none if it is a cdf of no weights.
fn over<'c, const PRECISION: usize>(cdf: &'c [u8]) -> Option<Over<'c, PRECISION>>
    requires { IsPrecision 8 PRECISION }
    ensures accepted { IfSome result (λ _. (weights : List ℕ)
        × IsCdfOfWeights 8 PRECISION weights cdf.now) }
    ensures rows { (weights : List ℕ) → IsCdfOfWeights 8 PRECISION weights cdf.now
        → IsSomeAnd result (λ model. contiguous_model_rows model ≡ contiguous_rows weights) }
{
    match Over::<PRECISION>::from_cdf(cdf) {
        Ok(model) => Some(model),
        Err(_) => None,
    }
}

#[test]
fn as_many_weights_need_no_memory(rt: HostRuntime) {
    let mut model = small(&rt, rt.alloc());
    if model.support_size() == 4 {
        same(&rt, reweigh(&mut model, &[40, 8, 8, 8]), true);
    }
    if model.support_size() == 4 {
        same(&rt, reweigh(&mut model, &[40, 8, 8, 9]), false);
    }
    same(&rt, symbol_of(&model, 39), 0);
    same(&rt, symbol_of(&model, 40), 1);
}

/// Asserts how many symbols a model over these words has, or that they are no cdf.
fn has_symbols<const PRECISION: usize>(rt: &impl Abort, cdf: &[u8], symbols: Option<usize>)
    requires { IsPrecision 8 PRECISION }
{
    let found = match over::<PRECISION>(cdf) {
        Some(model) => Some(model.support_size()),
        None => None,
    };
    same_at(rt, cdf, found, symbols);
}

#[test]
fn a_model_is_made_over_a_cdf_and_over_nothing_else(rt: HostRuntime) {
    has_symbols::<6>(&rt, &[0, 3, 21, 22, 64], Some(4));
    has_symbols::<6>(&rt, &[0, 3, 3, 64], None);
    has_symbols::<8>(&rt, &[0, 200, 0], Some(2));
}
