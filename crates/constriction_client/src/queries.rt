//! Questions to two models, and the replies to them.

ghost use Rattle.std.specs.Prelude.{IfOk, map};
ghost use Rattle.constriction_model.specs.Entries.{SameEntries};
ghost use Rattle.constriction_model.specs.Rows.{entry_of};
ghost use Rattle.constriction_client.specs.Replies.{in_numbers, reply_to_query, replies_by_scan};
ghost use Rattle.constriction_client.specs.Replies.{StandsForReply, AreRepliesOf};

use constriction_model::{DecoderModel, EncoderModel, Weight, is_quantile};
use constriction_words::WholeNumber;
use std::alloc::{AllocError, Global};
use std::fmt::Debug;

/// A question to a decoder or to an encoder.
#[derive(Debug, PartialEq, Eq, Drop)]
pub enum Query<Symbol, Word> {
    /// Which row holds this quantile?
    OfQuantile(Word),
    /// Which entry has this symbol?
    OfSymbol(Symbol),
}

/// The reply to a [`Query`].
#[derive(Drop)]
#[derive_where(Debug; Symbol: Debug, Word: Debug, Weight<Word>: Debug)]
#[derive_where(PartialEq; Symbol: PartialEq, Word: PartialEq, Weight<Word>: PartialEq)]
#[derive_where(Eq; Symbol: Eq, Word: Eq, Weight<Word>: Eq)]
pub enum Reply<Symbol, Word: WholeNumber> {
    /// The row: its symbol, its left cumulative and its weight.
    Row(Symbol, Word, Weight<Word>),
    /// The word is no quantile: it is not below `2^PRECISION`.
    OutOfRange,
    /// The entry, left cumulative and weight, or `None` if the symbol has none.
    Entry(Option<(Word, Weight<Word>)>),
}

/// The reply to one query.
fn answer_query<D, E, const PRECISION: usize>(
    form: &D,
    encoder: &E,
    query: &Query<D::Symbol, D::Probability>,
) -> Result<Reply<D::Symbol, D::Probability>, AllocError>
where
    D: DecoderModel<PRECISION>,
    E: EncoderModel<PRECISION, Symbol = D::Symbol, Probability = D::Probability>,
    ensures { IfOk result (λ reply.
        StandsForReply D.stands_for (in_numbers D.Probability.whole D.Probability.base reply)
        (reply_to_query PRECISION D.Probability.whole (D.rows form.now)
        (entry_of E.symbol_eq (E.rows encoder.now)) query.now)) }
{
    match query {
        Query::OfQuantile(word) => {
            if !is_quantile::<D::Probability, PRECISION>(*word) {
                return Ok(Reply::OutOfRange);
            }
            let (symbol, left, weight) = form.quantile_function(*word)?;
            Ok(Reply::Row(symbol, left, weight))
        }
        Query::OfSymbol(symbol) => {
            let entry = encoder.left_cumulative_and_probability(symbol);
            Ok(Reply::Entry(entry))
        }
    }
}

/// The replies to queries, in order. The decoder `form` answers quantiles, and the encoder answers
/// symbols. The decoder is not asked for a word that is no quantile, and answers clones if it owns
/// its symbols.
///
/// Memory for the replies is asked for once, before the first query. The call fails if that is
/// refused, or if memory for a clone of a symbol is.
pub fn answer_queries<D, E, const PRECISION: usize>(
    alloc: Global,
    form: &D,
    encoder: &E,
    queries: &[Query<D::Symbol, D::Probability>],
) -> Result<Vec<Reply<D::Symbol, D::Probability>>, AllocError>
where
    D: DecoderModel<PRECISION>,
    D::Symbol: Drop,
    E: EncoderModel<PRECISION, Symbol = D::Symbol, Probability = D::Probability>,
    ensures ok { IfOk result (λ replies.
        AreRepliesOf D.stands_for (map (reply_to_query PRECISION D.Probability.whole
        (D.rows form.now) (entry_of E.symbol_eq (E.rows encoder.now))) queries.now)
        (map (in_numbers D.Probability.whole D.Probability.base) replies.items)) }
    ensures of_one { IfOk result (λ replies.
        SameEntries E.symbol_eq (E.rows encoder.now) (D.rows form.now) → AreRepliesOf D.stands_for
        (replies_by_scan PRECISION D.Probability.whole E.symbol_eq queries.now (D.rows form.now))
        (map (in_numbers D.Probability.whole D.Probability.base) replies.items)) }
{
    let mut replies = Vec::with_capacity(alloc, queries.len())?;
    for query in queries {
        replies.push(answer_query(form, encoder, query)?)?;
    }
    Ok(replies)
}
