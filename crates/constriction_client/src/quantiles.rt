//! Items as quantiles into a sink, and words from a source as pairs.

ghost use Rattle.std.specs.Prelude.{◌≡◌, ◌+◌, ◌^◌, ◌≤◌, ◌⊎◌, ℕ, IfOk, IfErr, OnOk};
ghost use Rattle.std.specs.Prelude.{Option, Some, length, vec_capacity};
ghost use Rattle.constriction_model.specs.Model.{RowMayBeRefused};
ghost use Rattle.constriction_model.specs.Rows.{entry_of};
ghost use Rattle.constriction_client.specs.Quantiles.{IsQuantileOf, IsFaultOf, WritesItems, StopsAtItem};
ghost use Rattle.constriction_client.specs.Quantiles.{GivesPair, ReadsPairs};

use constriction_backends::{ReadWords, WriteWords};
use constriction_model::{DecoderModel, EncoderModel, is_quantile};
use constriction_words::{CoderError, Semantics, WholeNumber};
use thiserror::Error;

/// Why an item has no quantile.
#[derive(Debug, Clone, Copy, PartialEq, Eq, Drop, Error)]
pub enum QuantileFault {
    /// The model has no entry of the symbol.
    #[error("The model has no entry of the symbol.")]
    ImpossibleSymbol,
    /// The offset is not below the weight of the symbol.
    #[error("The offset is not below the weight of the symbol.")]
    OffsetTooLarge,
}

/// Why a word gives no pair.
#[derive(Debug, Clone, Copy, PartialEq, Eq, Drop, Error)]
pub enum ReadFault {
    /// Memory for the symbol, or for one more pair, was refused.
    #[error("Memory for a pair was refused.")]
    OutOfMemory,
    /// The word is no quantile: it is not below `2^PRECISION`.
    #[error("The word is no quantile.")]
    QuantileTooLarge,
}

/// The quantile of an item whose symbol has this left cumulative and this weight.
#[inline]
fn quantile_within<Symbol, P: WholeNumber>(
    item: &(Symbol, P),
    left: P,
    weight: P,
) -> Result<P, QuantileFault>
    requires { P.whole left + P.whole weight ≤ 2 ^ P.BITS }
    ensures ok { IfOk result (λ word. (entry : Symbol → Option (ℕ × ℕ))
        → Some (P.whole left, P.whole weight) ≡ entry item.now.0
        → IsQuantileOf entry P.whole item.now (P.whole word)) }
    ensures err { IfErr result (λ fault. (entry : Symbol → Option (ℕ × ℕ))
        → Some (P.whole left, P.whole weight) ≡ entry item.now.0
        → IsFaultOf entry P.whole item.now fault) }
{
    if item.1.is_below(weight) {
        Ok(left.plus(item.1))
    } else {
        Err(QuantileFault::OffsetTooLarge)
    }
}

/// The quantile of an item.
#[inline]
fn quantile_of_item<E, const PRECISION: usize>(
    encoder: &E,
    item: &(E::Symbol, E::Probability),
) -> Result<E::Probability, QuantileFault>
where
    E: EncoderModel<PRECISION>,
    ensures ok { IfOk result (λ word. IsQuantileOf (entry_of E.symbol_eq (E.rows encoder.now))
        E.Probability.whole item.now (E.Probability.whole word)) }
    ensures err { IfErr result
        (IsFaultOf (entry_of E.symbol_eq (E.rows encoder.now)) E.Probability.whole item.now) }
{
    match encoder.left_cumulative_and_probability(&item.0) {
        Some((left, weight)) => quantile_within(item, left, E::Probability::from_weight(weight)),
        None => Err(QuantileFault::ImpossibleSymbol),
    }
}

/// The pair of a word, if the word is a quantile.
#[inline]
fn pair_of<M, const PRECISION: usize>(
    model: &M,
    word: M::Probability,
) -> Result<(M::Symbol, M::Probability), ReadFault>
where
    M: DecoderModel<PRECISION>,
    ensures { GivesPair M.stands_for (M.rows model.now) M.Probability.whole PRECISION
        (RowMayBeRefused M.may_refuse (M.rows model.now)) word result }
{
    if !is_quantile::<M::Probability, PRECISION>(word) {
        return Err(ReadFault::QuantileTooLarge);
    }
    match model.quantile_function(word) {
        Ok((symbol, left, _)) => Ok((symbol, word.minus(left))),
        Err(_) => Err(ReadFault::OutOfMemory),
    }
}

/// Writes the quantile of each item, in order: the left cumulative of its symbol plus its offset,
/// which says which of the symbol's quantiles is meant.
///
/// It stops at the first item that is refused, with `Frontend` if the item has no quantile and with
/// `Backend` if the sink refuses it. The words of the items before it stay written. It makes one
/// pass over the items, and one write for each.
pub fn write_quantiles<E, W, const PRECISION: usize>(
    encoder: &E,
    items: &[(E::Symbol, E::Probability)],
    sink: &mut W,
) -> Result<(), CoderError<QuantileFault, W::WriteError>>
where
    E: EncoderModel<PRECISION>,
    W: WriteWords<E::Probability>,
    requires can_write { W.can_write sink.old }
    ensures ok { OnOk result (WritesItems (entry_of E.symbol_eq (E.rows encoder.now))
        E.Probability.whole W.write_gives W.tells_written items.now sink.old sink.new) }
    ensures err { IfErr result (λ error. StopsAtItem (entry_of E.symbol_eq (E.rows encoder.now))
        E.Probability.whole W.write_gives W.tells_written items.now sink.old error sink.new) }
    ensures goes_on { W.can_write sink.new }
{
    for item in items {
        let word = match quantile_of_item(encoder, item) {
            Ok(word) => word,
            Err(error) => return Err(CoderError::Frontend(error)),
        };
        match sink.write(word) {
            Ok(()) => {}
            Err(error) => return Err(CoderError::Backend(error)),
        }
    }
    Ok(())
}

/// Reads up to `count` words, and adds the pair of each to `out`: the symbol of the word's row, or
/// a clone if the model owns its symbols, and how far the word lies after the left cumulative of
/// that row.
///
/// It answers the number of pairs that were added, which is below `count` only if the source ended.
/// It fails with `Frontend` at a word that gives no pair, which has then been read, and with
/// `Backend` if a read fails. Either way `out` keeps the pairs of the words before, and reading may
/// go on. It makes one look-up for each word, and takes memory only for the symbols and for `out`.
pub fn read_symbols<S: Semantics, M, R, const PRECISION: usize>(
    model: &M,
    source: &mut R,
    count: usize,
    out: &mut Vec<(M::Symbol, M::Probability)>,
) -> Result<usize, CoderError<ReadFault, R::ReadError>>
where
    M: DecoderModel<PRECISION>,
    M::Symbol: Drop,
    R: ReadWords<M::Probability, S>,
    requires can_read { R.can_read source.old }
    ensures pairs { ReadsPairs R.ReadWords (GivesPair M.stands_for (M.rows model.now)
        M.Probability.whole PRECISION (λ q. RowMayBeRefused M.may_refuse (M.rows model.now) q
        ⊎ (vec_capacity out.new ≤ length out.new.items))) count source.old out.old.items result
        source.new out.new.items }
    ensures capacity { length out.new.items ≤ vec_capacity out.old
        → vec_capacity out.new ≡ vec_capacity out.old }
    ensures goes_on { R.can_read source.new }
{
    for done in 0..count {
        let word = match source.read() {
            Ok(Some(word)) => word,
            Ok(None) => return Ok(done),
            Err(error) => return Err(CoderError::Backend(error)),
        };
        let pair = match pair_of(model, word) {
            Ok(pair) => pair,
            Err(error) => return Err(CoderError::Frontend(error)),
        };
        match out.write(pair) {
            Ok(()) => {}
            Err(_) => return Err(CoderError::Frontend(ReadFault::OutOfMemory)),
        }
    }
    Ok(count)
}
