//! Bits-back coding: a symbol is encoded by way of a latent symbol, which is decoded from what the
//! coder holds.
//!
//! 1. A latent symbol is decoded by the posterior, the model that the symbol chooses.
//! 2. The symbol is encoded by the likelihood, the model that the latent symbol chooses.
//! 3. The latent symbol is encoded by its prior.
//!
//! Decoding undoes these steps, the last one first. So step 1 costs nothing: what it took from the
//! coder comes back.

ghost use Rattle.std.specs.Prelude.{◌≡◌, ◌+◌, ◌%◌, ◌^◌, ◌<◌, ◌≤◌, ◌⊎◌, [], None, Some, Err, IfErr, IfOk, OnOk, OnErr, length, vec_capacity};
ghost use Rattle.std.specs.Fn.{FnReturnsAt};
ghost use Rattle.constriction_model.specs.Model.{AnswersQuantile};
ghost use Rattle.constriction_model.specs.Rows.{entry_of};
ghost use Rattle.constriction_coders.specs.BitsBack.{IsCodedByLatent, IsEncodedByChosen, IsDecodedByChosen, IsChosenByState};
ghost use Rattle.constriction_coders.specs.AnsCoder.{held_by};
ghost use Rattle.constriction_coders.specs.Steps.{Content, content, MayBeHeld, IsOnTop, IsEncoded, IsDecoded};
ghost use Rattle.constriction_model.specs.Precision.{IsPrecision};

use crate::entry::{Entry, entry_of_symbol, symbol_and_entry};
use crate::laws::may_be_held;
use crate::model_word::ModelWord;
use crate::stack::ans_coder::AnsCoder;
use crate::stack::state::quantile_of;
use constriction_model::{DecoderModel, EncoderModel};
use constriction_words::{CoderError, DefaultEncoderFrontendError};
use std::alloc::AllocError;

/// Takes the symbol of this entry from the top. A read of a `Vec` does not fail.
fn take_from_vec<const PRECISION: usize>(coder: &mut AnsCoder<Vec<u32>>, entry: Entry)
    requires fits { PRECISION ≤ 32 }
    requires some { 0 < entry.1 }
    requires within { entry.0 + entry.1 ≤ 2 ^ PRECISION }
    requires from { entry.0 ≤ coder.old.state % 2 ^ PRECISION }
    requires to { coder.old.state % 2 ^ PRECISION < entry.0 + entry.1 }
    ensures under { IsOnTop PRECISION entry.0 entry.1 (held_by coder.old) (held_by coder.new) }
    ensures len { length coder.new.words.items ≤ length coder.old.words.items }
    ensures capacity { vec_capacity coder.new.words ≡ vec_capacity coder.old.words }
{
    match coder.take_entry::<PRECISION>(entry.0, entry.1) {
        Ok(()) => {}
        Err(error) => match error {},
    }
}

/// Puts a symbol of this entry on top. There is room for a word.
fn put_reserved<const PRECISION: usize>(coder: &mut AnsCoder<Vec<u32>>, entry: Entry)
    requires precision { IsPrecision 32 PRECISION }
    requires some { 0 < entry.1 }
    requires within { entry.0 + entry.1 ≤ 2 ^ PRECISION }
    requires room { length coder.old.words.items < vec_capacity coder.old.words }
    ensures over { IsOnTop PRECISION entry.0 entry.1 (held_by coder.new) (held_by coder.old) }
    ensures len { length coder.new.words.items ≤ length coder.old.words.items + 1 }
    ensures capacity { vec_capacity coder.new.words ≡ vec_capacity coder.old.words }
    ensures held { MayBeHeld (held_by coder.new) }
{
    match coder.put_entry::<PRECISION>(entry.0, entry.1) {
        Ok(()) => {}
        Err(_) => unreachable!(),
    }
    // What is encoded onto a content is unique only among contents that a coder may hold.
    may_be_held(coder);
}

/// Takes a symbol from the top and puts two others there. If memory for their words is refused, the
/// coder stays as it was.
fn exchange<const DRAWN: usize, const CODED: usize, const PAID: usize>(
    coder: &mut AnsCoder<Vec<u32>>,
    drawn: Entry,
    coded: Entry,
    paid: Entry,
) -> Result<(), AllocError>
    requires drawn_fits { DRAWN ≤ 32 }
    requires drawn_some { 0 < drawn.1 }
    requires drawn_within { drawn.0 + drawn.1 ≤ 2 ^ DRAWN }
    requires from { drawn.0 ≤ coder.old.state % 2 ^ DRAWN }
    requires to { coder.old.state % 2 ^ DRAWN < drawn.0 + drawn.1 }
    requires coded_precision { IsPrecision 32 CODED }
    requires coded_some { 0 < coded.1 }
    requires coded_within { coded.0 + coded.1 ≤ 2 ^ CODED }
    requires paid_precision { IsPrecision 32 PAID }
    requires paid_some { 0 < paid.1 }
    requires paid_within { paid.0 + paid.1 ≤ 2 ^ PAID }
    ensures ok { OnOk result ((rest full : Content)
        × IsOnTop DRAWN drawn.0 drawn.1 (held_by coder.old) rest
        × IsOnTop CODED coded.0 coded.1 full rest
        × IsOnTop PAID paid.0 paid.1 (held_by coder.new) full) }
    ensures same { OnErr result (held_by coder.new ≡ held_by coder.old) }
{
    coder.words.reserve(2)?;
    take_from_vec::<DRAWN>(coder, drawn);
    put_reserved::<CODED>(coder, coded);
    put_reserved::<PAID>(coder, paid);
    Ok(())
}

/// The symbol that a state has by the model that another symbol chooses, and its entry; and the
/// entry of the other symbol by the model that this one chooses.
fn symbol_by_other<
    Symbol: Drop,
    Other,
    BackModel: EncoderModel<BACK_PRECISION, Symbol = Other, Probability: ModelWord> + Drop,
    Model: DecoderModel<PRECISION, Symbol = Symbol, Probability: ModelWord> + Drop,
    Back: Fn(&Symbol) -> BackModel,
    Chosen: Fn(&Other) -> Model,
    const BACK_PRECISION: usize,
    const PRECISION: usize,
>(
    state: u64,
    other: &Other,
    back: Back,
    chosen: Chosen,
) -> Result<(Symbol, Entry, Entry), CoderError<DefaultEncoderFrontendError, AllocError>>
    requires back { Back.IsAlwaysCallable back }
    requires chosen { Chosen.IsAlwaysCallable chosen }
    ensures found { IfOk result (λ t. (model : Model) × FnReturnsAt Chosen.Fn chosen other.now model
        × AnswersQuantile Model.stands_for (λ n. n) (λ n. n) (Model.rows model)
        (state % 2 ^ PRECISION) (t.0, t.1.0, t.1.1)) }
    ensures fits { IfOk result (λ _. PRECISION ≤ 32) }
    ensures some { IfOk result (λ t. 0 < t.1.1) }
    ensures within { IfOk result (λ t. t.1.0 + t.1.1 ≤ 2 ^ PRECISION) }
    ensures from { IfOk result (λ t. t.1.0 ≤ state % 2 ^ PRECISION) }
    ensures to { IfOk result (λ t. state % 2 ^ PRECISION < t.1.0 + t.1.1) }
    ensures back { IfOk result (λ t. (model : BackModel) × FnReturnsAt Back.Fn back t.0 model
        × (entry_of BackModel.symbol_eq (BackModel.rows model) other.now
        ≡ Some (t.2.0, t.2.1))) }
    ensures back_precision { IfOk result (λ _. IsPrecision 32 BACK_PRECISION) }
    ensures back_some { IfOk result (λ t. 0 < t.2.1) }
    ensures back_within { IfOk result (λ t. t.2.0 + t.2.1 ≤ 2 ^ BACK_PRECISION) }
    ensures impossible { (fault : _) → result ≡ Err (CoderError.Frontend fault) → (symbol : Symbol)
        × IsChosenByState (FnReturnsAt Chosen.Fn chosen) Model.rows PRECISION Model.stands_for
        other.now symbol (content state []) × (model : BackModel)
        × FnReturnsAt Back.Fn back symbol model
        × (entry_of BackModel.symbol_eq (BackModel.rows model) other.now ≡ None) }
{
    let model = chosen(other);
    let (symbol, own) = match symbol_and_entry::<Model, PRECISION>(
        &model,
        quantile_of::<PRECISION>(state),
    ) {
        Ok(answer) => answer,
        Err(error) => return Err(CoderError::Backend(error)),
    };
    let back_model = back(&symbol);
    match entry_of_symbol::<BackModel, BACK_PRECISION>(&back_model, other) {
        Some(entry) => Ok((symbol, own, entry)),
        None => Err(CoderError::Frontend(DefaultEncoderFrontendError::ImpossibleSymbol)),
    }
}

/// Encodes a symbol by a latent one, which is decoded from what the coder holds.
///
/// It fails with `ImpossibleSymbol` if the latent symbol has no entry in its prior, or the symbol
/// has none in the likelihood. It also fails if memory is refused, for a clone of the latent symbol
/// or for two words. An error leaves the state and the words.
pub fn encode<
    Symbol,
    Latent: Drop,
    PosteriorModel: DecoderModel<POSTERIOR_PRECISION, Symbol = Latent, Probability: ModelWord>
        + Drop,
    LikelihoodModel: EncoderModel<LIKELIHOOD_PRECISION, Symbol = Symbol, Probability: ModelWord>
        + Drop,
    Prior: EncoderModel<PRIOR_PRECISION, Symbol = Latent, Probability: ModelWord>,
    Posterior: Fn(&Symbol) -> PosteriorModel,
    Likelihood: Fn(&Latent) -> LikelihoodModel,
    const POSTERIOR_PRECISION: usize,
    const LIKELIHOOD_PRECISION: usize,
    const PRIOR_PRECISION: usize,
>(
    coder: &mut AnsCoder<Vec<u32>>,
    symbol: &Symbol,
    posterior: Posterior,
    likelihood: Likelihood,
    prior: &Prior,
) -> Result<(), CoderError<DefaultEncoderFrontendError, AllocError>>
    requires posterior { Posterior.IsAlwaysCallable posterior }
    requires likelihood { Likelihood.IsAlwaysCallable likelihood }
    ensures ok { OnOk result (IsCodedByLatent
        (IsDecodedByChosen (FnReturnsAt Posterior.Fn posterior) PosteriorModel.rows
        POSTERIOR_PRECISION PosteriorModel.stands_for)
        (IsEncodedByChosen (FnReturnsAt Likelihood.Fn likelihood) LikelihoodModel.rows
        LIKELIHOOD_PRECISION LikelihoodModel.symbol_eq)
        (λ s. IsEncoded (entry_of Prior.symbol_eq (Prior.rows prior.now) s) PRIOR_PRECISION)
        symbol.now (held_by coder.new) (held_by coder.old)) }
    ensures impossible { (fault : _) → result ≡ Err (CoderError.Frontend fault) → (latent : Latent)
        × IsChosenByState (FnReturnsAt Posterior.Fn posterior) PosteriorModel.rows
        POSTERIOR_PRECISION PosteriorModel.stands_for symbol.now latent (held_by coder.old)
        × (given : LikelihoodModel) × FnReturnsAt Likelihood.Fn likelihood latent given
        × ((entry_of Prior.symbol_eq (Prior.rows prior.now) latent ≡ None)
        ⊎ (entry_of LikelihoodModel.symbol_eq (LikelihoodModel.rows given) symbol.now ≡ None)) }
    ensures same { OnErr result (held_by coder.new ≡ held_by coder.old) }
{
    let (latent, drawn, coded) = match symbol_by_other::<
        Latent,
        Symbol,
        LikelihoodModel,
        PosteriorModel,
        Likelihood,
        Posterior,
        LIKELIHOOD_PRECISION,
        POSTERIOR_PRECISION,
    >(coder.state, symbol, likelihood, posterior)
    {
        Ok(found) => found,
        Err(error) => return Err(error),
    };
    let Some(paid) = entry_of_symbol::<Prior, PRIOR_PRECISION>(prior, &latent) else {
        return Err(CoderError::Frontend(DefaultEncoderFrontendError::ImpossibleSymbol));
    };
    match exchange::<POSTERIOR_PRECISION, LIKELIHOOD_PRECISION, PRIOR_PRECISION>(
        coder, drawn, coded, paid,
    ) {
        Ok(()) => Ok(()),
        Err(error) => Err(CoderError::Backend(error)),
    }
}

/// Takes the symbol on top, and makes room for a word. It answers the symbol and its entry. An
/// error leaves the state and the words.
fn take_symbol<Model, const PRECISION: usize>(
    coder: &mut AnsCoder<Vec<u32>>,
    model: &Model,
) -> Result<(Model::Symbol, Entry), AllocError>
where
    Model: DecoderModel<PRECISION, Probability: ModelWord>,
    Model::Symbol: Drop,
    ensures decoded { IfOk result (λ t. IsDecoded Model.stands_for (Model.rows model.now) PRECISION
        t.0 (held_by coder.old) (held_by coder.new)) }
    ensures under { IfOk result (λ t.
        IsOnTop PRECISION t.1.0 t.1.1 (held_by coder.old) (held_by coder.new)) }
    ensures precision { IfOk result (λ _. IsPrecision 32 PRECISION) }
    ensures some { IfOk result (λ t. 0 < t.1.1) }
    ensures within { IfOk result (λ t. t.1.0 + t.1.1 ≤ 2 ^ PRECISION) }
    ensures room { IfOk result (λ _.
        length coder.new.words.items < vec_capacity coder.new.words) }
    ensures same { IfErr result (λ _. held_by coder.new ≡ held_by coder.old) }
{
    let (symbol, entry) = match symbol_and_entry::<Model, PRECISION>(
        model,
        quantile_of::<PRECISION>(coder.state),
    ) {
        Ok(answer) => answer,
        Err(error) => return Err(error),
    };
    match coder.words.reserve(1) {
        Ok(()) => {}
        Err(error) => return Err(error),
    }
    take_from_vec::<PRECISION>(coder, entry);
    Ok((symbol, entry))
}

/// Decodes a symbol that [`encode`] encoded by a latent one, and puts the latent one back on the
/// coder.
///
/// It fails with `ImpossibleSymbol` if the posterior of the symbol has no entry for the latent one,
/// which never comes after [`encode`] by models that fit together (`known` of
/// [`bits_come_back`](crate::laws::bits_come_back)). It also fails if memory is refused, for a
/// clone of either symbol or for a word. An error leaves the state and the words.
pub fn decode<
    Symbol: Drop,
    Latent: Drop,
    PosteriorModel: EncoderModel<POSTERIOR_PRECISION, Symbol = Latent, Probability: ModelWord>
        + Drop,
    LikelihoodModel: DecoderModel<LIKELIHOOD_PRECISION, Symbol = Symbol, Probability: ModelWord>
        + Drop,
    Prior: DecoderModel<PRIOR_PRECISION, Symbol = Latent, Probability: ModelWord>,
    Posterior: Fn(&Symbol) -> PosteriorModel,
    Likelihood: Fn(&Latent) -> LikelihoodModel,
    const POSTERIOR_PRECISION: usize,
    const LIKELIHOOD_PRECISION: usize,
    const PRIOR_PRECISION: usize,
>(
    coder: &mut AnsCoder<Vec<u32>>,
    posterior: Posterior,
    likelihood: Likelihood,
    prior: &Prior,
) -> Result<Symbol, CoderError<DefaultEncoderFrontendError, AllocError>>
    requires posterior { Posterior.IsAlwaysCallable posterior }
    requires likelihood { Likelihood.IsAlwaysCallable likelihood }
    ensures ok { IfOk result (λ symbol. IsCodedByLatent (IsEncodedByChosen
        (FnReturnsAt Posterior.Fn posterior) PosteriorModel.rows POSTERIOR_PRECISION
        PosteriorModel.symbol_eq) (IsDecodedByChosen (FnReturnsAt Likelihood.Fn likelihood)
        LikelihoodModel.rows LIKELIHOOD_PRECISION LikelihoodModel.stands_for)
        (IsDecoded Prior.stands_for (Prior.rows prior.now) PRIOR_PRECISION) symbol
        (held_by coder.old) (held_by coder.new)) }
    ensures impossible { (fault : _) → result ≡ Err (CoderError.Frontend fault)
        → (latent : Latent) × (full : Content) × IsDecoded Prior.stands_for (Prior.rows prior.now)
        PRIOR_PRECISION latent (held_by coder.old) full × (symbol : Symbol)
        × IsChosenByState (FnReturnsAt Likelihood.Fn likelihood) LikelihoodModel.rows
        LIKELIHOOD_PRECISION LikelihoodModel.stands_for latent symbol full
        × (chosen : PosteriorModel) × FnReturnsAt Posterior.Fn posterior symbol chosen
        × (entry_of PosteriorModel.symbol_eq (PosteriorModel.rows chosen) latent ≡ None) }
    ensures same { OnErr result (held_by coder.new ≡ held_by coder.old) }
{
    // If no symbol is decoded, putting the latent one back leaves what the coder holds now, which
    // it may hold.
    may_be_held(coder);
    let (latent, paid) = match take_symbol::<Prior, PRIOR_PRECISION>(coder, prior) {
        Ok(taken) => taken,
        Err(error) => return Err(CoderError::Backend(error)),
    };
    match symbol_by_other::<
        Symbol,
        Latent,
        PosteriorModel,
        LikelihoodModel,
        Posterior,
        Likelihood,
        POSTERIOR_PRECISION,
        LIKELIHOOD_PRECISION,
    >(coder.state, &latent, posterior, likelihood)
    {
        Ok((symbol, coded, returned)) => {
            take_from_vec::<LIKELIHOOD_PRECISION>(coder, coded);
            put_reserved::<POSTERIOR_PRECISION>(coder, returned);
            Ok(symbol)
        }
        Err(error) => {
            put_reserved::<PRIOR_PRECISION>(coder, paid);
            Err(error)
        }
    }
}
