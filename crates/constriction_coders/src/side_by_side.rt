//! Two messages that are decoded side by side.

ghost use Rattle.std.specs.Prelude.{◌≡◌, ◌≤◌, List, IfErr, OnOk, length};
ghost use Rattle.constriction_coders.specs.Filling.{FillingStops, FirstAreFilled, IsFilledTo};
ghost use Rattle.constriction_coders.specs.SideBySide.{OneStops};
ghost use Rattle.constriction_model.specs.Coding.{InTurn};

use crate::decode::Decode;
use crate::model_word::ModelWord;
use constriction_model::DecoderModel;
use constriction_words::CoderError;

/// Which of two coders did not decode a symbol, and its error.
#[derive(Debug, PartialEq, Eq, Drop)]
pub enum DecodeTwoError<FirstError, SecondError> {
    /// The first coder did not.
    First(FirstError),
    /// The second coder did not.
    Second(SecondError),
}

/// Decodes into the first `count` places of either slice. The coders take turns.
fn decode_both<A, B, D, const PRECISION: usize>(
    first_coder: &mut A,
    first: &mut [D::Symbol],
    second_coder: &mut B,
    second: &mut [D::Symbol],
    count: usize,
    model: &D,
) -> Result<
    (),
    DecodeTwoError<
        CoderError<A::FrontendError, A::BackendError>,
        CoderError<B::FrontendError, B::BackendError>,
    >,
>
where
    A: Decode<PRECISION>,
    B: Decode<PRECISION>,
    D: DecoderModel<PRECISION, Probability: ModelWord>,
    D::Symbol: Drop,
    requires first_can { A.can_decode first_coder.old }
    requires second_can { B.can_decode second_coder.old }
    requires first_places { count ≤ length first.old }
    requires second_places { count ≤ length second.old }
    ensures first_goes_on { A.can_decode first_coder.new }
    ensures second_goes_on { B.can_decode second_coder.new }
    ensures first_length { length first.new ≡ length first.old }
    ensures second_length { length second.new ≡ length second.old }
    ensures first_ok { OnOk result (IsFilledTo A.held
        (A.is_decoded D.Symbol D.stands_for (D.rows model.now)) count first.old first.new
        (A.held first_coder.old) first_coder.new) }
    ensures second_ok { OnOk result (IsFilledTo B.held
        (B.is_decoded D.Symbol D.stands_for (D.rows model.now)) count second.old second.new
        (B.held second_coder.old) second_coder.new) }
    ensures err { IfErr result (λ error. OneStops
        (λ e. FillingStops A.held (A.is_decoded D.Symbol D.stands_for (D.rows model.now))
        (A.decodes D.Symbol D.may_refuse (D.rows model.now)) first.old first.new e
        (A.held first_coder.old) first_coder.new)
        (FirstAreFilled A.held (A.is_decoded D.Symbol D.stands_for (D.rows model.now)) first.old
        first.new (A.held first_coder.old) first_coder.new)
        (λ e. FillingStops B.held (B.is_decoded D.Symbol D.stands_for (D.rows model.now))
        (B.decodes D.Symbol D.may_refuse (D.rows model.now)) second.old second.new e
        (B.held second_coder.old) second_coder.new)
        (FirstAreFilled B.held (B.is_decoded D.Symbol D.stands_for (D.rows model.now)) second.old
        second.new (B.held second_coder.old) second_coder.new) error) }
{
    for done in 0..count {
        match first_coder.decode_symbol(model) {
            Ok(symbol) => first[done] = symbol,
            Err(error) => return Err(DecodeTwoError::First(error)),
        }
        match second_coder.decode_symbol(model) {
            Ok(symbol) => second[done] = symbol,
            Err(error) => return Err(DecodeTwoError::Second(error)),
        }
    }
    Ok(())
}

/// Decodes into the places from `from` on, if those before it are filled.
fn decode_rest<C, D, const PRECISION: usize>(
    coder: &mut C,
    symbols: &mut [D::Symbol],
    from: usize,
    model: &D,
) -> Result<(), CoderError<C::FrontendError, C::BackendError>>
where
    C: Decode<PRECISION>,
    D: DecoderModel<PRECISION, Probability: ModelWord>,
    D::Symbol: Drop,
    requires can { C.can_decode coder.old }
    requires places { from ≤ length symbols.old }
    ensures goes_on { C.can_decode coder.new }
    ensures length { length symbols.new ≡ length symbols.old }
    ensures ok { OnOk result ((before : List D.Symbol) (start : C.Content) → IsFilledTo C.held
        (C.is_decoded D.Symbol D.stands_for (D.rows model.now)) from before symbols.old start
        coder.old → InTurn (C.is_decoded D.Symbol D.stands_for (D.rows model.now)) symbols.new start
        (C.held coder.new)) }
    ensures err { IfErr result (λ error. (before : List D.Symbol) (start : C.Content)
        → IsFilledTo C.held (C.is_decoded D.Symbol D.stands_for (D.rows model.now)) from before
        symbols.old start coder.old → FillingStops C.held
        (C.is_decoded D.Symbol D.stands_for (D.rows model.now))
        (C.decodes D.Symbol D.may_refuse (D.rows model.now)) before symbols.new error start
        coder.new) }
{
    match coder.decode_into(&mut symbols[from..], model) {
        Ok(()) => Ok(()),
        Err(error) => Err(error),
    }
}

/// Decodes a message from each of two coders, as many symbols as its slice has.
///
/// The coders take turns as long as both slices have places, so that a processor works on both
/// symbols at once. The first error ends the call. It leaves what was decoded before it at the
/// beginning of each slice, and the other symbols as they were.
pub fn decode_two<A, B, D, const PRECISION: usize>(
    first_coder: &mut A,
    first: &mut [D::Symbol],
    second_coder: &mut B,
    second: &mut [D::Symbol],
    model: &D,
) -> Result<
    (),
    DecodeTwoError<
        CoderError<A::FrontendError, A::BackendError>,
        CoderError<B::FrontendError, B::BackendError>,
    >,
>
where
    A: Decode<PRECISION>,
    B: Decode<PRECISION>,
    D: DecoderModel<PRECISION, Probability: ModelWord>,
    D::Symbol: Drop,
    requires first_can { A.can_decode first_coder.old }
    requires second_can { B.can_decode second_coder.old }
    ensures first_goes_on { A.can_decode first_coder.new }
    ensures second_goes_on { B.can_decode second_coder.new }
    ensures first_length { length first.new ≡ length first.old }
    ensures second_length { length second.new ≡ length second.old }
    ensures first_ok { OnOk result (InTurn (A.is_decoded D.Symbol D.stands_for (D.rows model.now))
        first.new (A.held first_coder.old) (A.held first_coder.new)) }
    ensures second_ok { OnOk result (InTurn (B.is_decoded D.Symbol D.stands_for (D.rows model.now))
        second.new (B.held second_coder.old) (B.held second_coder.new)) }
    ensures err { IfErr result (λ error. OneStops
        (λ e. FillingStops A.held (A.is_decoded D.Symbol D.stands_for (D.rows model.now))
        (A.decodes D.Symbol D.may_refuse (D.rows model.now)) first.old first.new e
        (A.held first_coder.old) first_coder.new)
        (FirstAreFilled A.held (A.is_decoded D.Symbol D.stands_for (D.rows model.now)) first.old
        first.new (A.held first_coder.old) first_coder.new)
        (λ e. FillingStops B.held (B.is_decoded D.Symbol D.stands_for (D.rows model.now))
        (B.decodes D.Symbol D.may_refuse (D.rows model.now)) second.old second.new e
        (B.held second_coder.old) second_coder.new)
        (FirstAreFilled B.held (B.is_decoded D.Symbol D.stands_for (D.rows model.now)) second.old
        second.new (B.held second_coder.old) second_coder.new) error) }
{
    let count = first.len().min(second.len());
    match decode_both::<A, B, D, PRECISION>(
        first_coder,
        first,
        second_coder,
        second,
        count,
        model,
    ) {
        Ok(()) => {}
        Err(error) => return Err(error),
    }
    match decode_rest::<A, D, PRECISION>(first_coder, first, count, model) {
        Ok(()) => {}
        Err(error) => return Err(DecodeTwoError::First(error)),
    }
    match decode_rest::<B, D, PRECISION>(second_coder, second, count, model) {
        Ok(()) => Ok(()),
        Err(error) => Err(DecodeTwoError::Second(error)),
    }
}
