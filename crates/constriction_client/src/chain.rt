//! Chains of conversions between the forms of a decoder.

ghost use Rattle.std.specs.Prelude.{◌≡◌, ◌≤◌, Bool, List, fold, map, true, false, IfOk, IfErr};
ghost use Rattle.std.specs.Iterator.{Drains, IsFinite};
ghost use Rattle.std.specs.List.{IsDistinct};
ghost use Rattle.constriction_model.specs.Acceptance.{AreAccepted};
ghost use Rattle.constriction_model.specs.Model.{StandForRows, ClonesAreSame, ClonesAreEqual};
ghost use Rattle.constriction_categorical.specs.ModelRows.{decoder_model_rows, lookup_model_rows};
ghost use Rattle.constriction_model.specs.Precision.{IsLookupPrecision, IsPrecision};
ghost use Rattle.constriction_model.specs.Rows.{Row, rows_of, symbols_of};
ghost use Rattle.constriction_client.specs.Chains.{is_lookup, is_lookup_after, StepLeaves, ChainLeaves};
ghost use Rattle.constriction_client.specs.FormRows.{form_rows};

use crate::decoder_form::{DecoderForm, Searching, Tabled};
use crate::laws::form_symbols_differ;
use constriction_categorical::{IterableEntropyModel, to_generic_decoder_model_of_distinct};
use constriction_conversions::laws::table_gives_all_rows;
use constriction_model::{EntropyModel, ModelError, Weight};
use constriction_words::{IndexWord, WholeNumber};
use std::alloc::{AllocError, Global};

/// A conversion of a [`DecoderForm`].
#[derive(Debug, Clone, Copy, PartialEq, Eq, Drop)]
pub enum ChainStep {
    /// To the form that searches all rows, by `to_generic_decoder_model_of_distinct`.
    ToSearch,
    /// To the form with a lookup table, by the same and `into_lookup_decoder_model`.
    ToLookup,
    /// To the form that searches all rows, by `into_non_contiguous_categorical`, which takes no
    /// memory. A form that already searches stays as it is.
    IntoSearch,
    /// To a form of the same kind, by
    /// `from_distinct_symbols_and_nonzero_fixed_point_probabilities`.
    Rebuild,
}

/// The symbols of the rows that a walk gives, and their weights as words, in order. It stops at the
/// first refusal.
fn symbols_and_words<Symbol: Drop, Word: WholeNumber, Walk>(
    alloc: Global,
    walk: Walk,
) -> Result<(Vec<Symbol>, Vec<Word>), AllocError>
where
    Walk: Iterator<Item = Result<(Symbol, Word, Weight<Word>), AllocError>>,
    requires callable { Walk.can_next walk }
    requires ends { IsFinite (Walk.remaining walk) }
    ensures { IfOk result (λ lists. (rows : List (Symbol × Word × Word.NonZero))
        × Drains Walk.next_gives walk (map Ok rows) × (lists.0.items ≡ map (λ x. x.0) rows)
        × (lists.1.items ≡ map (λ x. Word.base x.2) rows)) }
{
    let announced = walk.size_hint().0;
    let mut symbols = Vec::with_capacity(alloc, announced)?;
    let mut words = Vec::with_capacity(alloc, announced)?;
    for row in walk {
        let (symbol, _left, weight) = row?;
        symbols.push(symbol)?;
        words.push(Word::from_weight(weight))?;
    }
    Ok((symbols, words))
}

/// The symbols that a walk through a model gives, and the weights of its rows, in order. The
/// constructors from symbols and weights accept them, and make rows that stand for the model's.
fn symbols_and_weights<M, const PRECISION: usize>(
    alloc: Global,
    model: M,
) -> Result<(Vec<M::Symbol>, Vec<M::Probability>), AllocError>
where
    M: IterableEntropyModel<PRECISION>,
    M::Symbol: Eq + Drop,
    requires clones { ClonesAreEqual M.Symbol.eq M.stands_for }
    requires distinct { IsDistinct M.Symbol.eq (symbols_of (M.rows model)) }
    ensures accepted { IfOk result (λ lists. AreAccepted M.Symbol.eq M.Probability.BITS PRECISION
        lists.0.items (map M.Probability.whole lists.1.items)) }
    ensures rows { IfOk result (λ lists. StandForRows M.stands_for
        (rows_of lists.0.items (map M.Probability.whole lists.1.items)) (M.rows model)) }
{
    table_gives_all_rows::<M, PRECISION>();
    let (symbols, weights) = symbols_and_words(alloc, model.symbol_table())?;
    Ok((symbols, weights))
}

/// The searching model of symbols and weights that are accepted. The symbols are not compared.
fn searching_of<Symbol: Eq + Drop, Probability: WholeNumber, const PRECISION: usize>(
    alloc: Global,
    symbols: Vec<Symbol>,
    weights: Vec<Probability>,
) -> Result<Searching<Symbol, Probability, PRECISION>, ModelError>
    requires precision { IsPrecision Probability.BITS PRECISION }
    requires accepted { AreAccepted Symbol.eq Probability.BITS PRECISION symbols.items
        (map Probability.whole weights.items) }
    ensures rows { IfOk result (λ m.
        decoder_model_rows m ≡ rows_of symbols.items (map Probability.whole weights.items)) }
    ensures refused { IfErr result (λ e. e ≡ ModelError.OutOfMemory) }
{
    Searching::from_distinct_symbols_and_nonzero_fixed_point_probabilities(
        alloc, symbols, weights, false,
    )
}

/// The lookup model of symbols and weights that are accepted. The symbols are not compared.
fn tabled_of<Symbol: Eq + Drop, Probability: IndexWord, const PRECISION: usize>(
    alloc: Global,
    symbols: Vec<Symbol>,
    weights: Vec<Probability>,
) -> Result<Tabled<Symbol, Probability, PRECISION>, ModelError>
    requires precision { IsLookupPrecision Probability.BITS PRECISION }
    requires accepted { AreAccepted Symbol.eq Probability.BITS PRECISION symbols.items
        (map Probability.whole weights.items) }
    ensures rows { IfOk result (λ m.
        lookup_model_rows m ≡ rows_of symbols.items (map Probability.whole weights.items)) }
    ensures refused { IfErr result (λ e. e ≡ ModelError.OutOfMemory) }
{
    Tabled::from_distinct_symbols_and_nonzero_fixed_point_probabilities(
        alloc, symbols, weights, false,
    )
}

/// The searching model of a form's rows, with clones of its symbols. No symbols are compared.
fn searched<Symbol: Eq + Clone + Drop, Probability: IndexWord, const PRECISION: usize>(
    alloc: Global,
    form: &DecoderForm<Symbol, Probability, PRECISION>,
) -> Result<Searching<Symbol, Probability, PRECISION>, ModelError>
    requires clones { ClonesAreEqual Symbol.eq Symbol.is_clone }
    requires distinct { IsDistinct Symbol.eq (symbols_of (form_rows form.now)) }
    ensures rows { IfOk result (λ m.
        StandForRows Symbol.is_clone (decoder_model_rows m) (form_rows form.now)) }
    ensures refused { IfErr result (λ e. e ≡ ModelError.OutOfMemory) }
{
    to_generic_decoder_model_of_distinct(alloc, form)
}

/// If no form has two equal symbols, this one has none.
fn symbols_differ_of<Symbol: Eq, Probability: IndexWord, const PRECISION: usize>(
    form: &DecoderForm<Symbol, Probability, PRECISION>,
)
    requires { (form : _) → IsDistinct Symbol.eq (symbols_of
        (⟦<DecoderForm<Symbol, Probability, PRECISION> as EntropyModel<PRECISION>>⟧.rows form)) }
    ensures { IsDistinct Symbol.eq (symbols_of (form_rows form.now)) }
{}

/// The form with a lookup table of the same rows.
fn with_table<Symbol: Eq + Drop, Probability: IndexWord, const PRECISION: usize>(
    alloc: Global,
    model: Searching<Symbol, Probability, PRECISION>,
) -> Result<DecoderForm<Symbol, Probability, PRECISION>, ModelError>
    requires { PRECISION ≤ 63 }
    ensures rows { IfOk result (λ m. form_rows m ≡ decoder_model_rows model) }
    ensures kind { IfOk result (λ m. is_lookup m ≡ true) }
    ensures refused { IfErr result (λ e. e ≡ ModelError.OutOfMemory) }
{
    Ok(DecoderForm::Lookup(model.into_lookup_decoder_model(alloc)?))
}

/// A form that a chain can convert. A conversion keeps the rows, or makes them anew with clones of
/// their symbols. The only refusal is `OutOfMemory`.
trait Converts<Symbol>: Sized {
    // The rows of a form.
    ghost rows_of_form: { Self → List (Row Symbol) };

    // What is known of a clone of a symbol.
    ghost clone_of: { Symbol → Symbol → Type 0 };

    // Whether a form looks up which rows to search.
    ghost looks_up: { Self → Bool };

    // What a conversion requires of symbols, words and their precision.
    ghost may_convert: { Type 0 };

    /// The searching form of the same rows.
    fn to_search(&self, alloc: Global) -> Result<Self, ModelError>
        requires { may_convert }
        ensures rows { IfOk result (λ made.
            StandForRows clone_of (rows_of_form made) (rows_of_form self.now)) }
        ensures kind { IfOk result (λ made. looks_up made ≡ false) }
        ensures refused { IfErr result (λ e. e ≡ ModelError.OutOfMemory) };

    /// The form with a lookup table, of the same rows.
    fn to_lookup(&self, alloc: Global) -> Result<Self, ModelError>
        requires { may_convert }
        ensures rows { IfOk result (λ made.
            StandForRows clone_of (rows_of_form made) (rows_of_form self.now)) }
        ensures kind { IfOk result (λ made. looks_up made ≡ true) }
        ensures refused { IfErr result (λ e. e ≡ ModelError.OutOfMemory) };

    /// The searching form of the same rows, with the entries of this one.
    fn into_search(self) -> Self
        ensures rows { rows_of_form result ≡ rows_of_form self }
        ensures kind { looks_up result ≡ false };

    /// A form of the same kind, made anew of the symbols and the weights of the rows.
    fn rebuild(&self, alloc: Global) -> Result<Self, ModelError>
        requires { may_convert }
        ensures rows { IfOk result (λ made.
            StandForRows clone_of (rows_of_form made) (rows_of_form self.now)) }
        ensures kind { IfOk result (λ made. looks_up made ≡ looks_up self.now) }
        ensures refused { IfErr result (λ e. e ≡ ModelError.OutOfMemory) };
}

impl<Symbol: Eq + Clone + Drop, Probability: IndexWord, const PRECISION: usize> Converts<Symbol>
    for DecoderForm<Symbol, Probability, PRECISION> {
    ghost rows_of_form = { form_rows };

    ghost clone_of = { Symbol.is_clone };

    ghost looks_up = { is_lookup };

    ghost may_convert = { (PRECISION ≤ 63) × ClonesAreEqual Symbol.eq Symbol.is_clone
        × ((form : _) → IsDistinct Symbol.eq (symbols_of
        (⟦<DecoderForm<Symbol, Probability, PRECISION> as EntropyModel<PRECISION>>⟧.rows form))) };

    fn to_search(&self, alloc: Global) -> Result<Self, ModelError> {
        symbols_differ_of(self);
        Ok(DecoderForm::Search(searched(alloc, self)?))
    }

    fn to_lookup(&self, alloc: Global) -> Result<Self, ModelError> {
        symbols_differ_of(self);
        with_table(alloc, searched(alloc, self)?)
    }

    fn into_search(self) -> Self {
        match self {
            DecoderForm::Search(model) => DecoderForm::Search(model),
            DecoderForm::Lookup(model) => {
                DecoderForm::Search(model.into_non_contiguous_categorical())
            }
        }
    }

    fn rebuild(&self, alloc: Global) -> Result<Self, ModelError> {
        let (symbols, weights) = symbols_and_weights(alloc, self)?;
        match self {
            DecoderForm::Search(_) => {
                Ok(DecoderForm::Search(searching_of(alloc, symbols, weights)?))
            }
            DecoderForm::Lookup(_) => Ok(DecoderForm::Lookup(tabled_of(alloc, symbols, weights)?)),
        }
    }
}

/// One conversion.
fn convert_once<Symbol, Form: Converts<Symbol> + Drop>(
    alloc: Global,
    form: Form,
    step: &ChainStep,
) -> Result<Form, ModelError>
    requires { Form.may_convert }
    ensures rows { IfOk result (λ made.
        StepLeaves Form.clone_of step.now (Form.rows_of_form form) (Form.rows_of_form made)) }
    ensures kind { IfOk result (λ made.
        Form.looks_up made ≡ is_lookup_after (Form.looks_up form) step.now) }
    ensures refused { IfErr result (λ e. e ≡ ModelError.OutOfMemory) }
{
    match step {
        ChainStep::ToSearch => form.to_search(alloc),
        ChainStep::ToLookup => form.to_lookup(alloc),
        ChainStep::IntoSearch => Ok(form.into_search()),
        ChainStep::Rebuild => form.rebuild(alloc),
    }
}

/// Conversions, one after another.
fn convert_by<Symbol, Form: Converts<Symbol> + Drop>(
    alloc: Global,
    form: Form,
    steps: &[ChainStep],
) -> Result<Form, ModelError>
    requires { Form.may_convert }
    ensures rows { IfOk result (λ made.
        ChainLeaves Form.clone_of steps.now (Form.rows_of_form form) (Form.rows_of_form made)) }
    ensures kind { IfOk result (λ made.
        Form.looks_up made ≡ fold is_lookup_after (Form.looks_up form) steps.now) }
    ensures refused { IfErr result (λ e. e ≡ ModelError.OutOfMemory) }
{
    let mut form = form;
    for step in steps {
        form = convert_once(alloc, form, step)?;
    }
    Ok(form)
}

/// Converts a decoder's model by each step in turn. A step that makes the model anew clones its
/// symbols.
///
/// If memory is refused, the form is dropped. At most one more form is in memory at a time; a
/// rebuilding also has a list of symbols and a list of weights.
pub fn convert_chain<Symbol: Eq + Clone + Drop, Probability: IndexWord, const PRECISION: usize>(
    alloc: Global,
    form: DecoderForm<Symbol, Probability, PRECISION>,
    steps: &[ChainStep],
) -> Result<DecoderForm<Symbol, Probability, PRECISION>, ModelError>
    requires narrow { PRECISION ≤ 63 }
    requires clones { ClonesAreEqual Symbol.eq Symbol.is_clone }
    ensures rows { IfOk result (λ made.
        ChainLeaves Symbol.is_clone steps.now (form_rows form) (form_rows made)) }
    ensures exact { IfOk result (λ made. ClonesAreSame Symbol.is_clone
        → form_rows made ≡ form_rows form) }
    ensures kind { IfOk result (λ made.
        is_lookup made ≡ fold is_lookup_after (is_lookup form) steps.now) }
    ensures refused { IfErr result (λ e. e ≡ ModelError.OutOfMemory) }
{
    form_symbols_differ::<Symbol, Probability, PRECISION>();
    convert_by::<Symbol, _>(alloc, form, steps)
}
