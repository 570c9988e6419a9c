//! What contracts tell callers that make models of plain lists, and callers that encode numbers
//! below `support_size`. Only `of_letters` has a written answer, because its search took long.

ghost use Rattle.std.specs.Prelude.{◌≡◌, ◌<◌, [], ◌∷◌, Err, IfOk, IfSome, length, nat_eq};
ghost use Rattle.constriction.specs.Acceptance.{AreAccepted, IsAccepted};
ghost use Rattle.constriction.specs.ModelRows.{contiguous_model_rows, decoder_model_rows};
ghost use Rattle.constriction.specs.Precision.{IsPrecision};
ghost use Rattle.constriction.specs.Rows.{contiguous_rows, rows_of};

use crate::checks::same;
use constriction::CoderError;
use constriction::laws::contiguous_symbols_have_entries;
use constriction::stream::model::{
    ContiguousCategoricalEntropyModel, EncoderModel, EntropyModel, ModelError,
    NonContiguousCategoricalDecoderModel, UniformModel,
};
use constriction_coders::stack::AnsCoder;
use constriction_coders::{Decode, Encode};
use constriction_stored_weights::model_comes_back;
use std::alloc::{AllocError, Global};
use std::process::Abort;

/// A model of the symbols 0, 1, .. by weights of 32 bits.
type Model<const PRECISION: usize> = ContiguousCategoricalEntropyModel<u32, Vec<u32>, PRECISION>;

/// A model of letters over 24 bits.
type Letters = NonContiguousCategoricalDecoderModel<char, u32, Vec<(u32, char)>, 24>;

/// The model of the weights in a `Vec`.
fn of_a_vec<const PRECISION: usize>(
    alloc: Global,
    weights: Vec<u32>,
) -> Result<Model<PRECISION>, ModelError>
    requires { IsPrecision 32 PRECISION }
    ensures accepted { IfOk result (λ _. IsAccepted 32 PRECISION weights.items) }
    ensures rows { IfOk result (λ model.
        contiguous_model_rows model ≡ contiguous_rows weights.items) }
    ensures invalid { result ≡ Err ModelError.InvalidTable
        → ¬ (IsAccepted 32 PRECISION weights.items) }
{
    Model::<PRECISION>::from_nonzero_fixed_point_probabilities(alloc, weights, false)
}

/// The model of the weights in a slice.
fn of_a_slice<const PRECISION: usize>(
    alloc: Global,
    weights: &[u32],
) -> Result<Model<PRECISION>, ModelError>
    requires { IsPrecision 32 PRECISION }
    ensures accepted { IfOk result (λ _. IsAccepted 32 PRECISION weights.now) }
    ensures rows { IfOk result (λ model.
        contiguous_model_rows model ≡ contiguous_rows weights.now) }
    ensures invalid { result ≡ Err ModelError.InvalidTable
        → ¬ (IsAccepted 32 PRECISION weights.now) }
{
    Model::<PRECISION>::from_nonzero_fixed_point_probabilities(
        alloc,
        weights.iter().copied(),
        false,
    )
}

/// The model of letters and weights.
fn of_letters(alloc: Global, letters: Vec<char>, weights: Vec<u32>) -> Result<Letters, ModelError>
    ensures accepted { IfOk result (λ _. AreAccepted nat_eq 32 24 letters.items weights.items) }
    ensures rows { IfOk result (λ model.
        decoder_model_rows model ≡ rows_of letters.items weights.items) }
{
    Letters::from_symbols_and_nonzero_fixed_point_probabilities(alloc, letters, weights, false)
}

/// The letters of a model.
const LETTERS: [char; 2] = ['a', 'b'];

/// The model of these letters that comes back from stored weights.
fn from_stored_weights(alloc: Global) -> Option<Letters>
    ensures { IfSome result (λ model.
        decoder_model_rows model ≡ rows_of (97 ∷ 98 ∷ []) (16777215 ∷ 1 ∷ [])) }
{
    let letters = Vec::from_array(alloc, LETTERS).ok()?;
    let weights = Vec::from_array(alloc, [16_777_215, 1]).ok()?;
    let Ok(model) = of_letters(alloc, letters, weights) else {
        return None;
    };
    let letters = Vec::from_array(alloc, LETTERS).ok()?;
    model_comes_back(alloc, &model, letters).ok()
}

/// The left cumulative of a number, if it is below `support_size`.
fn left_of<const PRECISION: usize>(model: &Model<PRECISION>, place: usize) -> Option<u32> {
    if place >= model.support_size() {
        return None;
    }
    contiguous_symbols_have_entries();
    match model.left_cumulative_and_probability(&place) {
        Some((left, _)) => Some(left),
        None => unreachable!(),
    }
}

/// Encodes a number below `support_size`. This fails only if memory is refused.
fn encode_below<const PRECISION: usize>(
    coder: &mut AnsCoder<Vec<u32>>,
    model: &Model<PRECISION>,
    place: usize,
) -> Result<(), AllocError>
    requires { place < length (contiguous_model_rows model.now) }
{
    contiguous_symbols_have_entries();
    match coder.encode_symbol(&place, model) {
        Ok(()) => Ok(()),
        Err(CoderError::Frontend(_)) => unreachable!(),
        Err(CoderError::Backend(error)) => Err(error),
    }
}

/// Encodes a number if it is below the range of a uniform model. This fails only if memory is
/// refused.
fn encode_in_range(
    coder: &mut AnsCoder<Vec<u32>>,
    model: &UniformModel<u32, 24>,
    place: usize,
) -> Result<bool, AllocError> {
    if place >= model.support_size() {
        return Ok(false);
    }
    contiguous_symbols_have_entries();
    match coder.encode_symbol(&place, model) {
        Ok(()) => Ok(true),
        Err(CoderError::Frontend(_)) => unreachable!(),
        Err(CoderError::Backend(error)) => Err(error),
    }
}

/// Decodes a number. It is below `support_size`.
fn decode_below<const PRECISION: usize>(
    coder: &mut AnsCoder<Vec<u32>>,
    model: &Model<PRECISION>,
) -> Option<usize>
    ensures { IfSome result (λ place. place < length (contiguous_model_rows model.now)) }
{
    contiguous_symbols_have_entries();
    match coder.decode_symbol(model) {
        Ok(place) => Some(place),
        Err(_) => None,
    }
}

/// Decodes a number. It is in the range.
fn decode_in_range(coder: &mut AnsCoder<Vec<u32>>, model: &UniformModel<u32, 24>) -> Option<usize>
    ensures { IfSome result (λ place.
        place < length (⟦<UniformModel<u32, 24> as EntropyModel<24>>⟧.rows model.now)) }
{
    contiguous_symbols_have_entries();
    match coder.decode_symbol(model) {
        Ok(place) => Some(place),
        Err(_) => None,
    }
}

/// Four weights that end with `last`.
fn three_and(alloc: Global, last: u32) -> Result<Vec<u32>, AllocError> {
    Ok(Vec::from_array(alloc, [1000, 2000, 96, last])?)
}

/// How many symbols a model has, or the error if none was made.
fn count_of(made: Result<Model<12>, ModelError>) -> Result<usize, ModelError> {
    Ok(made?.support_size())
}

#[test]
fn a_list_makes_the_model_of_its_weights(rt: HostRuntime) {
    let alloc = rt.alloc();
    let tiling = three_and(alloc, 1000).expect(&rt, "memory");
    same(&rt, count_of(of_a_slice(alloc, &tiling)), Ok(4));
    same(&rt, count_of(of_a_vec(alloc, tiling)), Ok(4));
    let short = three_and(alloc, 999).expect(&rt, "memory");
    same(
        &rt,
        count_of(of_a_slice(alloc, &short)),
        Err(ModelError::InvalidTable),
    );
    same(
        &rt,
        count_of(of_a_vec(alloc, short)),
        Err(ModelError::InvalidTable),
    );
}

#[test]
fn lists_make_the_model_of_their_letters_and_it_comes_back(rt: HostRuntime) {
    match from_stored_weights(rt.alloc()) {
        Some(model) => same(&rt, model.support_size(), 2),
        None => panic!(rt; "two letters make a model, and it comes back"),
    }
}

#[test]
fn a_number_below_the_count_is_encoded_and_decoded(rt: HostRuntime) {
    let alloc = rt.alloc();
    let weights = three_and(alloc, 1000).expect(&rt, "memory");
    let Ok(model) = of_a_vec::<12>(alloc, weights) else {
        panic!(rt; "these weights tile");
    };
    same(&rt, left_of(&model, 3), Some(3096));
    same(&rt, left_of(&model, 4), None);
    let mut coder = AnsCoder::new(alloc);
    if 2 < model.support_size() {
        same(&rt, encode_below(&mut coder, &model, 2), Ok(()));
    }
    same(&rt, decode_below(&mut coder, &model), Some(2));
}

#[test]
fn a_number_in_range_is_encoded(rt: HostRuntime) {
    let mut coder = AnsCoder::new(rt.alloc());
    let model = UniformModel::new(3);
    same(&rt, encode_in_range(&mut coder, &model, 2), Ok(true));
    same(&rt, encode_in_range(&mut coder, &model, 3), Ok(false));
    same(&rt, decode_in_range(&mut coder, &model), Some(2));
}
