//! Callers who encode by prepared entries, and decode into slices they have, proved from the
//! contracts alone.

ghost use Rattle.std.specs.Prelude.{◌≡◌, ◌^◌, ◌<◌, IfSome, length};
ghost use Rattle.std.specs.List.{AllZip};
ghost use Rattle.constriction.specs.Coding.{StandsForEqual};
ghost use Rattle.constriction.specs.Precision.{IsPrecision};
ghost use Rattle.constriction_coders.specs.AnsCoder.{held_by};

use constriction::stream::model::{DecoderModel, EncoderModel, EntropyModel, Weight};
use constriction_coders::laws::{plain_bits_come_back, symbols_come_back};
use constriction_coders::stack::{AnsCoder, PreparedEntry, PreparedModel};
use constriction_coders::{Decode, decode_two};
use std::alloc::AllocError;

/// A model that prepares an entry each time that it is asked for it.
#[derive(Drop)]
pub struct Prepared<M> {
    pub model: M,
}

impl<M: EntropyModel<PRECISION>, const PRECISION: usize> EntropyModel<PRECISION> for Prepared<M> {
    type Symbol = M::Symbol;

    type Probability = M::Probability;

    ghost rows = { λ m. M.rows m.model };

    ghost precision_law = { λ m. M.precision_law m.model };
}

impl<M: EncoderModel<PRECISION>, const PRECISION: usize> EncoderModel<PRECISION> for Prepared<M> {
    ghost symbol_eq = { M.symbol_eq };

    fn left_cumulative_and_probability(
        &self,
        symbol: &M::Symbol,
    ) -> Option<(M::Probability, Weight<M::Probability>)> {
        self.model.left_cumulative_and_probability(symbol)
    }

    ghost equality_law = { M.equality_law };

    ghost within_law = { λ m. M.within_law m.model };
}

impl<M: DecoderModel<PRECISION>, const PRECISION: usize> DecoderModel<PRECISION> for Prepared<M> {
    ghost stands_for = { M.stands_for };

    ghost may_refuse = { M.may_refuse };

    fn quantile_function(
        &self,
        quantile: M::Probability,
    ) -> Result<(M::Symbol, M::Probability, Weight<M::Probability>), AllocError> {
        self.model.quantile_function(quantile)
    }

    ghost tile_law = { λ m. M.tile_law m.model };
}

impl<M: EncoderModel<PRECISION, Probability = u32>, const PRECISION: usize> PreparedModel<PRECISION>
    for Prepared<M> {
    fn prepared_entry(&self, symbol: &M::Symbol) -> Option<PreparedEntry> {
        match self.model.left_cumulative_and_probability(symbol) {
            Some((left, weight)) => Some(PreparedEntry::new(left, weight.get())),
            None => None,
        }
    }
}

/// Symbols that are encoded by prepared entries come back into a slice, in order.
pub fn into_a_slice<M, const PRECISION: usize>(
    coder: &mut AnsCoder<Vec<u32>>,
    model: &M,
    symbols: &[M::Symbol],
    answers: &mut [M::Symbol],
) -> Option<()>
where
    M: PreparedModel<PRECISION> + DecoderModel<PRECISION, Probability = u32>,
    M::Symbol: Drop,
    requires { length answers.old ≡ length symbols.now }
    ensures { IfSome result (λ _.
        AllZip (StandsForEqual M.stands_for M.symbol_eq) symbols.now answers.new) }
{
    symbols_come_back::<M, M, PRECISION>(model, model);
    match coder.encode_prepared_slice_reverse::<M, PRECISION>(symbols, model) {
        Ok(()) => {}
        Err(_) => return None,
    }
    match coder.decode_into::<M>(answers, model) {
        Ok(()) => Some(()),
        Err(_) => None,
    }
}

/// Two messages that are encoded onto two coders come back side by side.
pub fn side_by_side<M, const PRECISION: usize>(
    first_coder: &mut AnsCoder<Vec<u32>>,
    second_coder: &mut AnsCoder<Vec<u32>>,
    model: &M,
    first: &[M::Symbol],
    second: &[M::Symbol],
    first_answers: &mut [M::Symbol],
    second_answers: &mut [M::Symbol],
) -> Option<()>
where
    M: EncoderModel<PRECISION, Probability = u32> + DecoderModel<PRECISION, Probability = u32>,
    M::Symbol: Drop,
    requires first { length first_answers.old ≡ length first.now }
    requires second { length second_answers.old ≡ length second.now }
    ensures first { IfSome result (λ _.
        AllZip (StandsForEqual M.stands_for M.symbol_eq) first.now first_answers.new) }
    ensures second { IfSome result (λ _.
        AllZip (StandsForEqual M.stands_for M.symbol_eq) second.now second_answers.new) }
{
    symbols_come_back::<M, M, PRECISION>(model, model);
    match first_coder.encode_iid_slice_reverse::<M, PRECISION>(first, model) {
        Ok(()) => {}
        Err(_) => return None,
    }
    match second_coder.encode_iid_slice_reverse::<M, PRECISION>(second, model) {
        Ok(()) => {}
        Err(_) => return None,
    }
    match decode_two::<_, _, M, PRECISION>(
        first_coder,
        first_answers,
        second_coder,
        second_answers,
        model,
    ) {
        Ok(()) => Some(()),
        Err(_) => None,
    }
}

/// A number of `count` bits is taken as it was put, and the coder holds what it held before.
pub fn through_bits(coder: &mut AnsCoder<Vec<u32>>, count: u32, bits: u32) -> Option<u32>
    requires count { IsPrecision 32 count }
    requires fits { bits < 2 ^ count }
    ensures value { IfSome result (λ again. again ≡ bits) }
    ensures held { IfSome result (λ _. held_by coder.new ≡ held_by coder.old) }
{
    plain_bits_come_back();
    match coder.put_bits(count, bits) {
        Ok(()) => {}
        Err(_) => return None,
    }
    match coder.take_bits(count) {
        Ok(again) => Some(again),
        Err(never) => match never {},
    }
}
