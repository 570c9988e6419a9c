//! The next symbol of any coder, and several, one after the other.

ghost use Rattle.std.specs.Prelude.{◌≡◌, Err, IfOk, IfErr, OnErr, length};
ghost use Rattle.std.specs.Allocator.{alloc_error};
ghost use Rattle.constriction_adaptive.specs.Predicted.{AreCoded, AdaptiveDecodingStops, IsDecodedIn, IsNotDecoded};

use crate::predictor::Predictor;
use constriction_coders::Decode;
use constriction_words::CoderError;
use std::alloc::Global;

/// Decodes a symbol by the model that the predictor has for it, and learns it.
///
/// It fails as the coder does, and if memory to learn the symbol is refused. An error leaves what
/// was learned, and one of the frontend also what the coder holds.
pub fn decode_next<P, C, const PRECISION: usize>(
    predictor: &mut P,
    coder: &mut C,
) -> Result<P::Symbol, CoderError<C::FrontendError, C::BackendError>>
where
    P: Predictor<PRECISION>,
    P::Symbol: Drop,
    C: Decode<PRECISION>,
    requires { C.can_decode coder.old }
    ensures goes_on { C.can_decode coder.new }
    ensures ok { IfOk result (λ symbol.
        IsDecodedIn P.rows P.Model.symbol_eq PRECISION (C.is_decoded P.Symbol P.Model.stands_for)
        (P.state predictor.old, symbol) (C.held coder.old) (C.held coder.new)) }
    ensures learned { IfOk result (λ symbol.
        P.state predictor.new ≡ P.next (P.state predictor.old) symbol) }
    ensures err { IfErr result (λ error. IsNotDecoded (C.FrontendError.from_gives alloc_error)
        (C.decodes P.Symbol P.Model.may_refuse (P.rows (P.state predictor.old))) error coder.old
        coder.new) }
    ensures same { (fault : _) → result ≡ Err (CoderError.Frontend fault)
        → C.held coder.new ≡ C.held coder.old }
    ensures unlearned { OnErr result (P.state predictor.new ≡ P.state predictor.old) }
{
    match predictor.reserve() {
        Ok(()) => {}
        Err(error) => return Err(CoderError::Frontend(error.into())),
    }
    match coder.decode_symbol(predictor.model()) {
        Ok(symbol) => {
            predictor.learn(&symbol);
            Ok(symbol)
        }
        Err(error) => Err(error),
    }
}

/// Decodes `count` symbols, each by the model that the predictor has for it.
///
/// Memory for all of them is asked for first: if `count` comes from outside, use [`decode_next`].
/// The symbols before one that is not decoded are dropped, but stay decoded and learned.
pub fn decode_adaptively<P, C, const PRECISION: usize>(
    alloc: Global,
    predictor: &mut P,
    count: usize,
    coder: &mut C,
) -> Result<Vec<P::Symbol>, CoderError<C::FrontendError, C::BackendError>>
where
    P: Predictor<PRECISION>,
    P::Symbol: Drop,
    C: Decode<PRECISION>,
    requires { C.can_decode coder.old }
    ensures goes_on { C.can_decode coder.new }
    ensures ok { IfOk result (λ answers. AreCoded P.next
        (IsDecodedIn P.rows P.Model.symbol_eq PRECISION (C.is_decoded P.Symbol P.Model.stands_for))
        answers.items (P.state predictor.old) (C.held coder.old) (P.state predictor.new)
        (C.held coder.new)) }
    ensures count { IfOk result (λ answers. length answers.items ≡ count) }
    ensures err { IfErr result (λ error. AdaptiveDecodingStops P.next
        (IsDecodedIn P.rows P.Model.symbol_eq PRECISION (C.is_decoded P.Symbol P.Model.stands_for))
        C.held (C.FrontendError.from_gives alloc_error)
        (λ state. C.decodes P.Symbol P.Model.may_refuse (P.rows state)) count error
        (P.state predictor.old) (C.held coder.old) (P.state predictor.new) coder.new) }
{
    let mut answers = match Vec::with_capacity(alloc, count) {
        Ok(answers) => answers,
        Err(error) => return Err(CoderError::Frontend(error.into())),
    };
    for done in 0..count {
        match decode_next(predictor, coder) {
            Ok(symbol) => answers.push_reserved(symbol),
            Err(error) => return Err(error),
        }
    }
    Ok(answers)
}
