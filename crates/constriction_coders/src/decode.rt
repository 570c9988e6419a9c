//! What decodes symbols, at once or as they are asked for.

ghost use Rattle.std.specs.Prelude.{◌≡◌, ⊤, false, List, Result, Err, IfOk, IfErr, OnOk, length};
ghost use Rattle.std.specs.Allocator.{alloc_error};
ghost use Rattle.std.specs.Iterator.{at_most, count_unless, size};
ghost use Rattle.std.specs.Iterator.Adapters.{fuse_done, fuse_source, fuse_steps};
ghost use Rattle.std.specs.Iterator.SizeHint.{IsExactHint};
ghost use Rattle.constriction_coders.specs.Decoding.{Decodes, DecodingStops};
ghost use Rattle.constriction_coders.specs.Filling.{FillingStops};
ghost use Rattle.constriction_coders.specs.Walks.{StepsByModel, StepsOn};
ghost use Rattle.constriction_model.specs.Coding.{InTurn};
ghost use Rattle.constriction_model.specs.Rows.{Row};
ghost use Rattle.constriction_words.specs.declared.CoderError.{CoderError};

use crate::code::Code;
use crate::model_word::ModelWord;
use constriction_model::DecoderModel;
use constriction_words::CoderError;
use std::alloc::{AllocError, Global};
use std::fmt::Debug;
use std::iter::{Fuse, FusedIterator};

/// A coder that decodes.
pub trait Decode<const PRECISION: usize>: Code {
    /// Why a symbol is not decoded, apart from a read. One such error is that memory was refused.
    type FrontendError: Debug + From<AllocError>;

    /// The error of a read.
    type BackendError: Debug;

    // Whether a symbol may be asked for. By default it may.
    ghost can_decode: { Self → Type 0 } = { λ _. ⊤ };

    // The symbol stands for that of one of the rows, which leads from the first content to the
    // second.
    ghost is_decoded: { (Symbol : Type 0) → (Symbol → Symbol → Type 0) → List (Row Symbol) → Symbol
        → Self.Content → Self.Content → Type 0 };

    // What else a coder says of decoding a symbol.
    ghost decodes: { (Symbol : Type 0) → (Symbol → Type 0) → List (Row Symbol) → Self
        → Result Symbol (CoderError Self.FrontendError Self.BackendError) → Self → Type 0 };

    /// Decodes the next symbol. If all were decoded, it still decodes a symbol, or is refused.
    fn decode_symbol<D>(
        &mut self,
        model: &D,
    ) -> Result<D::Symbol, CoderError<Self::FrontendError, Self::BackendError>>
    where
        D: DecoderModel<PRECISION, Probability: ModelWord>,
        D::Symbol: Drop,
        requires { can_decode self.old }
        ensures goes_on { can_decode self.new }
        ensures ok { IfOk result (λ symbol. is_decoded D.Symbol D.stands_for (D.rows model.now)
            symbol (Self.held self.old) (Self.held self.new)) }
        ensures step { decodes D.Symbol D.may_refuse (D.rows model.now) self.old result self.new }
        ensures same { (fault : _) → result ≡ Err (CoderError.Frontend fault)
            → Self.held self.new ≡ Self.held self.old };

    /// Decodes `count` symbols.
    ///
    /// Memory for all of them is asked for first. If `count` comes from outside, use
    /// [`decode_iid_symbols`], which asks for none.
    fn decode_iid_vec<D>(
        &mut self,
        alloc: Global,
        count: usize,
        model: &D,
    ) -> Result<Vec<D::Symbol>, CoderError<Self::FrontendError, Self::BackendError>>
    where
        Self: Sized,
        D: DecoderModel<PRECISION, Probability: ModelWord>,
        D::Symbol: Drop,
        requires { can_decode self.old }
        ensures goes_on { can_decode self.new }
        ensures ok { IfOk result (λ symbols.
            InTurn (is_decoded D.Symbol D.stands_for (D.rows model.now)) symbols.items
            (Self.held self.old) (Self.held self.new)) }
        ensures count { IfOk result (λ symbols. length symbols.items ≡ count) }
        ensures err { IfErr result (λ error.
            DecodingStops Self.held (is_decoded D.Symbol D.stands_for (D.rows model.now))
            (decodes D.Symbol D.may_refuse (D.rows model.now))
            (Self.FrontendError.from_gives alloc_error) count error (Self.held self.old) self.new) }
    {
        let mut symbols = match Vec::with_capacity(alloc, count) {
            Ok(symbols) => symbols,
            Err(error) => return Err(CoderError::Frontend(error.into())),
        };
        for done in 0..count {
            match self.decode_symbol(model) {
                Ok(symbol) => symbols.push_reserved(symbol),
                Err(error) => return Err(error),
            }
        }
        Ok(symbols)
    }

    /// Decodes as many symbols as the slice has, and writes them there in order. No memory for them
    /// is asked for.
    ///
    /// An error leaves the symbols that were decoded before it at the beginning of the slice, and
    /// the others as they were.
    fn decode_into<D>(
        &mut self,
        symbols: &mut [D::Symbol],
        model: &D,
    ) -> Result<(), CoderError<Self::FrontendError, Self::BackendError>>
    where
        Self: Sized,
        D: DecoderModel<PRECISION, Probability: ModelWord>,
        D::Symbol: Drop,
        requires { can_decode self.old }
        ensures goes_on { can_decode self.new }
        ensures length { length symbols.new ≡ length symbols.old }
        ensures ok { OnOk result (InTurn (is_decoded D.Symbol D.stands_for (D.rows model.now))
            symbols.new (Self.held self.old) (Self.held self.new)) }
        ensures err { IfErr result (λ error.
            FillingStops Self.held (is_decoded D.Symbol D.stands_for (D.rows model.now))
            (decodes D.Symbol D.may_refuse (D.rows model.now)) symbols.old symbols.new error
            (Self.held self.old) self.new) }
    {
        for done in 0..symbols.len() {
            match self.decode_symbol(model) {
                Ok(symbol) => symbols[done] = symbol,
                Err(error) => return Err(error),
            }
        }
        Ok(())
    }
}

/// A walk through the next symbols, each by a model of its own. It decodes nothing before it is
/// asked.
pub fn decode_symbols<'c, C, D, I, const PRECISION: usize>(
    coder: &'c mut C,
    models: I,
) -> DecodeSymbols<'c, C, I::IntoIter, PRECISION>
where
    C: Decode<PRECISION>,
    D: DecoderModel<PRECISION, Probability: ModelWord> + Drop,
    D::Symbol: Drop,
    I: IntoIterator<Item = D>,
    ensures same_reference { result.coder.ghost_name ≡ coder.entry.ghost_name }
    ensures coder { result.coder.now ≡ coder.old }
    ensures models { I.into_iter_gives models (fuse_source result.models) }
    ensures begun { fuse_done result.models ≡ false }
{
    DecodeSymbols {
        coder,
        models: models.into_iter().fuse(),
    }
}

/// Symbols of a coder, each of which is decoded when it is asked for, by the next model of an
/// iterator.
///
/// It ends when the models do, and asks for none after that. An error stands in the place of a
/// symbol, and the next answer is by the next model. What was not asked for stays in the coder.
#[derive(Drop)]
pub struct DecodeSymbols<'c, C, Models, const PRECISION: usize> {
    pub(crate) coder: &'c mut C,
    pub(crate) models: Fuse<Models>,
}

impl<'c, C: Decode<PRECISION>, D, Models, const PRECISION: usize> Iterator
    for DecodeSymbols<'c, C, Models, PRECISION>
where
    D: DecoderModel<PRECISION, Probability: ModelWord> + Drop,
    D::Symbol: Drop,
    Models: Iterator<Item = D>,
{
    type Item = Result<D::Symbol, CoderError<C::FrontendError, C::BackendError>>;

    ghost can_next = { λ s. C.can_decode s.coder.now
        × (fuse_done s.models ≡ false → Models.can_next (fuse_source s.models)) };

    ghost next_gives = { λ s r t. (t.coder.ghost_name ≡ s.coder.ghost_name)
        × StepsByModel (fuse_steps Models.next_gives)
        (λ model. Decodes C.held (C.is_decoded D.Symbol D.stands_for (D.rows model))
        (C.decodes D.Symbol D.may_refuse (D.rows model))) s.models s.coder.now r t.models
        t.coder.now };

    ghost remaining = { λ s.
        count_unless (fuse_done s.models) (Models.remaining (fuse_source s.models)) };

    fn next(&mut self) -> Option<Result<D::Symbol, CoderError<C::FrontendError, C::BackendError>>> {
        match self.models.next() {
            Some(model) => Some(self.coder.decode_symbol(&model)),
            None => None,
        }
    }

    fn size_hint(&self) -> (usize, Option<usize>) {
        self.models.size_hint()
    }
}

impl<'c, C: Decode<PRECISION>, D, Models, const PRECISION: usize> FusedIterator
    for DecodeSymbols<'c, C, Models, PRECISION>
where
    D: DecoderModel<PRECISION, Probability: ModelWord> + Drop,
    D::Symbol: Drop,
    Models: Iterator<Item = D>,
{}

/// A walk through the next `count` symbols. It decodes nothing before it is asked.
pub fn decode_iid_symbols<'c, 'm, C, D, const PRECISION: usize>(
    coder: &'c mut C,
    count: usize,
    model: &'m D,
) -> DecodeIidSymbols<'c, 'm, C, D, PRECISION>
where
    C: Decode<PRECISION>,
    D: DecoderModel<PRECISION, Probability: ModelWord>,
    D::Symbol: Drop,
    ensures same_reference { result.coder.ghost_name ≡ coder.entry.ghost_name }
    ensures coder { result.coder.now ≡ coder.old }
    ensures model { result.model.now ≡ model.now }
    ensures count { result.left ≡ count }
{
    DecodeIidSymbols {
        coder,
        model,
        left: count,
    }
}

/// Symbols of a coder, each of which is decoded when it is asked for.
///
/// An error stands in the place of a symbol, and the next answer tries again. What was not asked
/// for stays in the coder.
#[derive(Drop)]
pub struct DecodeIidSymbols<
    'c,
    'm,
    C: Decode<PRECISION>,
    D: DecoderModel<PRECISION, Probability: ModelWord>,
    const PRECISION: usize,
> {
    pub(crate) coder: &'c mut C,
    pub(crate) model: &'m D,
    pub(crate) left: usize,
}

impl<
    'c,
    'm,
    C: Decode<PRECISION>,
    D: DecoderModel<PRECISION, Probability: ModelWord>,
    const PRECISION: usize,
> Iterator for DecodeIidSymbols<'c, 'm, C, D, PRECISION>
where
    D::Symbol: Drop,
{
    type Item = Result<D::Symbol, CoderError<C::FrontendError, C::BackendError>>;

    ghost can_next = { λ s. C.can_decode s.coder.now };

    ghost next_gives = { λ s r t. (t.coder.ghost_name ≡ s.coder.ghost_name) × (t.model ≡ s.model)
        × StepsOn (Decodes C.held (C.is_decoded D.Symbol D.stands_for (D.rows s.model.now))
        (C.decodes D.Symbol D.may_refuse (D.rows s.model.now))) s.left s.coder.now r t.left
        t.coder.now };

    ghost remaining = { λ s. at_most s.left };

    fn next(&mut self) -> Option<Result<D::Symbol, CoderError<C::FrontendError, C::BackendError>>> {
        if self.left == 0 {
            return None;
        }
        self.left -= 1;
        Some(self.coder.decode_symbol(self.model))
    }

    fn size_hint(&self) -> (usize, Option<usize>)
        ensures { IsExactHint result (size (⟦<Self as Iterator>⟧.remaining self.now)) }
    {
        let left = self.len();
        (left, Some(left))
    }
}

impl<
    'c,
    'm,
    C: Decode<PRECISION>,
    D: DecoderModel<PRECISION, Probability: ModelWord>,
    const PRECISION: usize,
> ExactSizeIterator for DecodeIidSymbols<'c, 'm, C, D, PRECISION>
where
    D::Symbol: Drop,
{
    /// How many answers are left.
    fn len(&self) -> usize {
        self.left
    }
}

impl<
    'c,
    'm,
    C: Decode<PRECISION>,
    D: DecoderModel<PRECISION, Probability: ModelWord>,
    const PRECISION: usize,
> FusedIterator for DecodeIidSymbols<'c, 'm, C, D, PRECISION>
where
    D::Symbol: Drop,
{}
