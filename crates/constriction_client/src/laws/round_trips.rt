//! Items that are written and read back, by one model or by two.

ghost use Rattle.std.specs.Prelude.{◌≡◌, List, length, reverse, Err, IfOk, IfErr, OnOk, OnErr};
ghost use Rattle.std.specs.List.{IsDistinct};
ghost use Rattle.constriction_conversions.specs.EncoderRows.{encoder_model_rows};
ghost use Rattle.constriction_model.specs.Entries.{SameEntries};
ghost use Rattle.constriction_model.specs.Model.{StandForRows, ClonesAreEqual};
ghost use Rattle.constriction_categorical.specs.ModelRows.{decoder_model_rows};
ghost use Rattle.constriction_model.specs.Rows.{entry_of, symbols_of};
ghost use Rattle.constriction_client.specs.private.Coming.{ComeNext, QuantilesCome, GoesBack};
ghost use Rattle.constriction_client.specs.declared.quantiles.QuantileFault.{QuantileFault};
ghost use Rattle.constriction_client.specs.Placing.{PlacesItems, EndsPlacing};
ghost use Rattle.constriction_backends.specs.Source.{Reads};
ghost use Rattle.constriction_client.specs.Quantiles.{ArePairs};
ghost use Rattle.constriction_client.specs.ThereAndBack.{StandForItems, HasFault};

use crate::decoder_form::Searching;
use crate::quantiles::{QuantileFault, ReadFault, read_symbols, write_quantiles};
use constriction_backends::laws::extending_overwrites;
use constriction_backends::{BoundedWriteError, Cursor, ReadWords, SafeBufMut};
use constriction_categorical::{IterableEntropyModel, to_generic_decoder_model};
use constriction_conversions::{NonContiguousCategoricalEncoderModel, to_generic_encoder_model};
use constriction_model::{DecoderModel, EncoderModel, ModelError};
use constriction_words::{CoderError, Pos, Queue, ReadWriteError, Seek, Semantics, Stack};
use std::alloc::{AllocError, Global};
use std::convert::Infallible;
use std::hash::Hash;

/// Why items did not come back from a cursor.
pub type CursorError = CoderError<QuantileFault, ReadWriteError<AllocError, BoundedWriteError>>;

/// A decoder model of some rows, and the encoder model of their entries.
pub type DecoderAndEncoder<Symbol, Probability, const PRECISION: usize> = (
    Searching<Symbol, Probability, PRECISION>,
    NonContiguousCategoricalEncoderModel<Symbol, Probability, PRECISION>,
);

/// Reads `count` words, which are quantiles, and answers their pairs.
fn read_back<S: Semantics, D, R, const PRECISION: usize>(
    alloc: Global,
    decoder: &D,
    source: &mut R,
    count: usize,
) -> Result<Vec<(D::Symbol, D::Probability)>, AllocError>
where
    D: DecoderModel<PRECISION>,
    D::Symbol: Drop,
    R: ReadWords<D::Probability, S, ReadError = Infallible>,
    requires can_read { R.can_read source.old }
    requires come { QuantilesCome PRECISION D.Probability.whole R.tells_upcoming count source.old }
    ensures ok { IfOk result (λ pairs. (words : List D.Probability)
        → ComeNext R.tells_upcoming source.old words → length words ≡ count
        → ArePairs D.stands_for (D.rows decoder.now) D.Probability.whole words pairs.items
        × Reads R.read_gives source.old words source.new) }
    ensures err { OnErr result
        ((words : List D.Probability) × Reads R.read_gives source.old words source.new) }
{
    let mut pairs = Vec::new(alloc);
    match read_symbols::<S, _, _, PRECISION>(decoder, source, count, &mut pairs) {
        Ok(_) => Ok(pairs),
        Err(CoderError::Frontend(ReadFault::OutOfMemory)) => Err(AllocError),
        Err(CoderError::Frontend(ReadFault::QuantileTooLarge)) => unreachable!(),
        Err(CoderError::Backend(error)) => match error {},
    }
}

/// Writes items to a stack in memory by the encoder, and reads them back by the decoder, the last
/// one first.
pub fn there_and_back_of_two<D, E, const PRECISION: usize>(
    alloc: Global,
    decoder: &D,
    encoder: &E,
    items: &[(D::Symbol, D::Probability)],
) -> Result<Vec<(D::Symbol, D::Probability)>, CoderError<QuantileFault, AllocError>>
where
    D: DecoderModel<PRECISION>,
    D::Symbol: Drop,
    E: EncoderModel<PRECISION, Symbol = D::Symbol, Probability = D::Probability>,
    requires alike { SameEntries E.symbol_eq (E.rows encoder.now) (D.rows decoder.now) }
    ensures ok { IfOk result (λ pairs.
        StandForItems D.stands_for E.symbol_eq (reverse items.now) pairs.items) }
    ensures fault { (fault : QuantileFault) → result ≡ Err (CoderError.Frontend fault)
        → HasFault (entry_of E.symbol_eq (E.rows encoder.now)) D.Probability.whole items.now fault }
{
    let mut words = Vec::new(alloc);
    write_quantiles(encoder, items, &mut words)?;
    match read_back::<Stack, _, _, PRECISION>(alloc, decoder, &mut words, items.len()) {
        Ok(pairs) => Ok(pairs),
        Err(error) => Err(CoderError::Backend(error)),
    }
}

/// As [`there_and_back_of_two`], with one model that is both.
pub fn there_and_back<M, const PRECISION: usize>(
    alloc: Global,
    model: &M,
    items: &[(M::Symbol, M::Probability)],
) -> Result<Vec<(M::Symbol, M::Probability)>, CoderError<QuantileFault, AllocError>>
where
    M: EncoderModel<PRECISION> + DecoderModel<PRECISION>,
    M::Symbol: Drop,
    ensures ok { IfOk result (λ pairs.
        StandForItems M.stands_for M.symbol_eq (reverse items.now) pairs.items) }
    ensures fault { (fault : QuantileFault) → result ≡ Err (CoderError.Frontend fault)
        → HasFault (entry_of M.symbol_eq (M.rows model.now)) M.Probability.whole items.now fault }
{
    there_and_back_of_two(alloc, model, model, items)
}

/// Makes the decoder model of a model's rows, and the hashed encoder model of its entries. If the
/// model owns its symbols, both have clones of them. The two agree, as [`there_and_back_of_two`]
/// and [`there_and_back_in_a_cursor`] require. The model is walked through twice.
pub fn decoder_and_encoder<M, const PRECISION: usize>(
    alloc: Global,
    model: M,
) -> Result<DecoderAndEncoder<M::Symbol, M::Probability, PRECISION>, ModelError>
where
    M: IterableEntropyModel<PRECISION> + Copy,
    M::Symbol: Hash + Eq + Drop,
    requires { ClonesAreEqual M.Symbol.eq M.stands_for }
    ensures rows { IfOk result (λ both.
        StandForRows M.stands_for (decoder_model_rows both.0) (M.rows model)) }
    ensures alike { IfOk result (λ both.
        SameEntries M.Symbol.eq (encoder_model_rows both.1) (decoder_model_rows both.0)) }
    ensures invalid { result ≡ Err ModelError.InvalidTable
        → ¬ (IsDistinct M.Symbol.eq (symbols_of (M.rows model))) }
{
    let decoder = to_generic_decoder_model::<M, PRECISION>(alloc, model)?;
    let encoder = to_generic_encoder_model::<M, PRECISION>(alloc, model)?;
    Ok((decoder, encoder))
}

/// Writes items to a cursor, and seeks back to the position before them.
fn write_and_go_back<E, Buf, const PRECISION: usize>(
    encoder: &E,
    items: &[(E::Symbol, E::Probability)],
    cursor: &mut Cursor<E::Probability, Buf>,
) -> Result<(), CursorError>
where
    E: EncoderModel<PRECISION>,
    Buf: SafeBufMut<E::Probability>,
    ensures ok { OnOk result (GoesBack (entry_of E.symbol_eq (E.rows encoder.now))
        E.Probability.whole Buf.with_words cursor.old items.now cursor.new) }
    ensures err { IfErr result (λ error. EndsPlacing (entry_of E.symbol_eq (E.rows encoder.now))
        E.Probability.whole Buf.with_words cursor.old items.now error cursor.new) }
{
    extending_overwrites::<E::Probability, Buf, BoundedWriteError>();
    let start = cursor.pos();
    match write_quantiles(encoder, items, cursor) {
        Ok(()) => {}
        Err(CoderError::Frontend(error)) => return Err(CoderError::Frontend(error)),
        Err(CoderError::Backend(error)) => {
            return Err(CoderError::Backend(ReadWriteError::Write(error)));
        }
    }
    match cursor.seek(start) {
        Ok(()) => Ok(()),
        Err(()) => unreachable!(),
    }
}

/// Writes items to a cursor by the encoder, seeks back to where they begin, and reads them as a
/// queue by the decoder. They come back in their order.
///
/// It fails with `Frontend` at the first item that has no quantile, with `Write` at the first one
/// whose quantile finds no place, and with `Read` if memory is refused. After `Frontend` or `Write`
/// the words of the items before stay, and the cursor stands after them. After `Read` the words of
/// all items stay, and nothing is known of the position.
pub fn there_and_back_in_a_cursor<D, E, Buf, const PRECISION: usize>(
    alloc: Global,
    decoder: &D,
    encoder: &E,
    items: &[(D::Symbol, D::Probability)],
    cursor: &mut Cursor<D::Probability, Buf>,
) -> Result<Vec<(D::Symbol, D::Probability)>, CursorError>
where
    D: DecoderModel<PRECISION>,
    D::Symbol: Drop,
    E: EncoderModel<PRECISION, Symbol = D::Symbol, Probability = D::Probability>,
    Buf: SafeBufMut<D::Probability>,
    requires alike { SameEntries E.symbol_eq (E.rows encoder.now) (D.rows decoder.now) }
    ensures ok { IfOk result (λ pairs.
        StandForItems D.stands_for E.symbol_eq items.now pairs.items) }
    ensures placed { OnOk result (PlacesItems (entry_of E.symbol_eq (E.rows encoder.now))
        D.Probability.whole Buf.with_words cursor.old items.now cursor.new) }
    ensures err { IfErr result (λ error. EndsPlacing (entry_of E.symbol_eq (E.rows encoder.now))
        D.Probability.whole Buf.with_words cursor.old items.now error cursor.new) }
{
    write_and_go_back(encoder, items, cursor)?;
    match read_back::<Queue, _, _, PRECISION>(alloc, decoder, cursor, items.len()) {
        Ok(pairs) => Ok(pairs),
        Err(error) => Err(CoderError::Backend(ReadWriteError::Read(error))),
    }
}
