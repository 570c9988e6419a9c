//! What contracts alone tell a caller of the client, and a caller that already has a form: words,
//! items and replies. A body that answers otherwise does not meet these contracts, even if the
//! check refuses it at a written proof.

ghost use Rattle.std.specs.Prelude.{◌≡◌, ◌++◌, [], ◌∷◌, Some, IfOk, IfSome, OnOk, IsTrue, false, map, nat_eq, true};
ghost use Rattle.constriction.specs.Entries.{SameEntries};
ghost use Rattle.constriction.specs.Rows.{contiguous_rows, rows_of};
ghost use Rattle.constriction_backends.specs.Cursor.{state_of};
ghost use Rattle.constriction_client.specs.Chains.{is_lookup};
ghost use Rattle.constriction_client.specs.Replies.{in_numbers};
ghost use Rattle.constriction_client.specs.declared.cursor_calls.CursorReply.TheVariants as reply;
ghost use Rattle.constriction_client.specs.declared.queries.Reply.TheVariants as answer;

use crate::checks::{holds, same};
use crate::known_models::decoder_of;
use constriction::stream::model::{EntropyModel, ModelError};
use constriction_backends::{BoundedWriteWords, Cursor, Reverse};
use constriction_client::laws::{there_and_back, there_and_back_in_a_cursor};
use constriction_client::{
    ChainStep, CursorCall, CursorReply, DecoderForm, QuantileFault, Query, Reply, answer_queries,
    run_cursor, run_reversed, write_quantiles,
};
use constriction_test_support::any_symbols::Encoder;
use constriction_test_support::contiguous::Weighted;
use constriction_test_support::given::{encoder_of, of_four};
use constriction_theorem::{FormAndReplies, answer_by_form};
use constriction_words::{CoderError, Seek, WholeNumber};
use std::alloc::{AllocError, Global};
use std::process::Abort;

/// Whether an item of the second symbol was written. The weights of 0, 1, 2 and 3 are 3, 18, 1 and
/// 42.
fn written(model: &Weighted<6>, sink: &mut Vec<u8>) -> bool
    requires { ⟦<Weighted<6> as EntropyModel<6>>⟧.rows model.now
        ≡ contiguous_rows (3 ∷ 18 ∷ 1 ∷ 42 ∷ []) }
    ensures { IsTrue result → sink.new.items ≡ sink.old.items ++ 5 ∷ [] }
{
    write_quantiles(model, &[(1, 2)], sink).is_ok()
}

/// Whether an item was written whose offset is the weight of its symbol.
fn too_large_was_written(model: &Weighted<6>, sink: &mut Vec<u8>) -> bool
    requires { ⟦<Weighted<6> as EntropyModel<6>>⟧.rows model.now
        ≡ contiguous_rows (3 ∷ 18 ∷ 1 ∷ 42 ∷ []) }
    ensures { result ≡ false }
{
    write_quantiles(model, &[(1, 18)], sink).is_ok()
}

/// The item that comes back.
fn back(
    alloc: Global,
    model: &Weighted<6>,
) -> Result<Vec<(usize, u8)>, CoderError<QuantileFault, AllocError>>
    ensures { IfOk result (λ pairs. pairs.items ≡ (1, 2) ∷ []) }
{
    there_and_back(alloc, model, &[(1, 2)])
}

/// The same through a cursor of two words.
fn through_a_cursor(
    alloc: Global,
    model: &Weighted<6>,
    cursor: &mut Cursor<u8, Vec<u8>>,
) -> Option<Vec<(usize, u8)>>
    requires rows { ⟦<Weighted<6> as EntropyModel<6>>⟧.rows model.now
        ≡ contiguous_rows (3 ∷ 18 ∷ 1 ∷ 42 ∷ []) }
    requires at { state_of cursor.old ≡ record { before = []; after = 0 ∷ 1 ∷ [] } }
    ensures items { IfSome result (λ pairs. pairs.items ≡ (1, 2) ∷ []) }
    ensures words { IfSome result (λ _.
        state_of cursor.new ≡ record { before = 5 ∷ []; after = 1 ∷ [] }) }
{
    match there_and_back_in_a_cursor(alloc, model, model, &[(1, 2)], cursor) {
        Ok(pairs) => Some(pairs),
        Err(_) => None,
    }
}

/// A cursor over 0 and 1 at its beginning.
fn at_0(alloc: Global) -> Result<Cursor<u8, Vec<u8>>, AllocError>
    ensures { IfOk result (λ c. state_of c ≡ record { before = []; after = 0 ∷ 1 ∷ [] }) }
{
    Ok(Cursor::new_at_write_beginning(Vec::from_array(alloc, [0u8, 1])?))
}

/// The replies to three queries.
fn replies(alloc: Global, model: &Weighted<6>) -> Result<Vec<Reply<usize, u8>>, AllocError>
    requires { ⟦<Weighted<6> as EntropyModel<6>>⟧.rows model.now
        ≡ contiguous_rows (3 ∷ 18 ∷ 1 ∷ 42 ∷ []) }
    ensures { IfOk result (λ replies.
        map (in_numbers ⟦<u8 as WholeNumber>⟧.whole ⟦<u8 as WholeNumber>⟧.base) replies.items
        ≡ answer.Row 1 3 18 ∷ answer.OutOfRange ∷ answer.Entry (Some (3, 18)) ∷ []) }
{
    let queries = [
        Query::OfQuantile(20),
        Query::OfQuantile(64),
        Query::OfSymbol(1),
    ];
    answer_queries(alloc, model, model, &queries)
}

/// The form that two conversions leave, and its replies to two queries, with the hashed encoder of
/// the same entries.
fn replies_after(
    alloc: Global,
    form: DecoderForm<char, u8, 6>,
    encoder: &Encoder<6>,
) -> Result<FormAndReplies<char, u8, 6>, ModelError>
    requires rows { ⟦<DecoderForm<char, u8, 6> as EntropyModel<6>>⟧.rows form
        ≡ rows_of (97 ∷ 120 ∷ 99 ∷ 121 ∷ []) (3 ∷ 18 ∷ 1 ∷ 42 ∷ []) }
    requires alike { SameEntries nat_eq (⟦<Encoder<6> as EntropyModel<6>>⟧.rows encoder.now)
        (⟦<DecoderForm<char, u8, 6> as EntropyModel<6>>⟧.rows form) }
    ensures kind { IfOk result (λ both. is_lookup both.0 ≡ true) }
    ensures replies { IfOk result (λ both.
        map (in_numbers ⟦<u8 as WholeNumber>⟧.whole ⟦<u8 as WholeNumber>⟧.base) both.1.items
        ≡ answer.Row 120 3 18 ∷ answer.OutOfRange ∷ []) }
{
    let steps = [ChainStep::ToLookup, ChainStep::Rebuild];
    let queries = [Query::OfQuantile(20), Query::OfQuantile(64)];
    answer_by_form(alloc, form, &steps, encoder, &queries)
}

/// A cursor over 10, 20 and 30 that stands at 1.
fn at_1(alloc: Global) -> Result<Cursor<u8, Vec<u8>>, AllocError>
    ensures { IfOk result (λ c. state_of c ≡ record { before = 10 ∷ []; after = 20 ∷ 30 ∷ [] }) }
{
    let words = Vec::from_array(alloc, [10u8, 20, 30])?;
    match Cursor::new_at_pos(words, 1) {
        Ok(cursor) => Ok(cursor),
        Err(()) => unreachable!(),
    }
}

/// The same cursor, reversed.
fn at_1_turned(alloc: Global) -> Result<Reverse<Cursor<u8, Vec<u8>>>, AllocError>
    ensures { IfOk result (λ c. state_of c.0 ≡ record { before = 30 ∷ 20 ∷ []; after = 10 ∷ [] }) }
{
    Ok(at_1(alloc)?.into_reversed())
}

/// Whether the first one was sought to its beginning.
fn was_sought(cursor: &mut Cursor<u8, Vec<u8>>) -> bool
    requires { state_of cursor.old ≡ record { before = 10 ∷ []; after = 20 ∷ 30 ∷ [] } }
    ensures { IsTrue result
        → state_of cursor.new ≡ record { before = []; after = 10 ∷ 20 ∷ 30 ∷ [] } }
{
    match cursor.seek(0) {
        Ok(()) => true,
        Err(()) => false,
    }
}

/// How many words there is room for in the turned one.
fn room_of_turned(cursor: &Reverse<Cursor<u8, Vec<u8>>>) -> usize
    requires { state_of cursor.now.0 ≡ record { before = 30 ∷ 20 ∷ []; after = 10 ∷ [] } }
    ensures { result ≡ 2 }
{
    cursor.space_left()
}

/// The replies of this cursor to a list of calls.
fn calls(
    alloc: Global,
    cursor: &mut Cursor<u8, Vec<u8>>,
) -> Result<Vec<CursorReply<u8>>, AllocError>
    requires { state_of cursor.old ≡ record { before = 10 ∷ []; after = 20 ∷ 30 ∷ [] } }
    ensures replies { IfOk result (λ replies.
        replies.items ≡ reply.Word (Some 10) ∷ reply.Written ∷ []) }
    ensures left { OnOk result
        (state_of cursor.new ≡ record { before = 7 ∷ []; after = 20 ∷ 30 ∷ [] }) }
{
    run_cursor(
        alloc,
        cursor,
        &[CursorCall::StackRead, CursorCall::Write(7)],
    )
}

/// The replies of the same cursor after it was reversed.
fn turned_calls(
    alloc: Global,
    cursor: &mut Reverse<Cursor<u8, Vec<u8>>>,
) -> Result<Vec<CursorReply<u8>>, AllocError>
    requires { state_of cursor.old.0 ≡ record { before = 30 ∷ 20 ∷ []; after = 10 ∷ [] } }
    ensures replies { IfOk result (λ replies.
        replies.items ≡ reply.Word (Some 10) ∷ reply.Written ∷ []) }
    ensures left { OnOk result
        (state_of cursor.new.0 ≡ record { before = 30 ∷ 20 ∷ []; after = 7 ∷ [] }) }
{
    run_reversed(
        alloc,
        cursor,
        &[CursorCall::StackRead, CursorCall::Write(7)],
    )
}

/// Asserts that the model writes the item, gives it back, and replies.
fn leaves_one_result(rt: &impl Abort, alloc: Global, model: &Weighted<6>)
    requires { ⟦<Weighted<6> as EntropyModel<6>>⟧.rows model.now
        ≡ contiguous_rows (3 ∷ 18 ∷ 1 ∷ 42 ∷ []) }
{
    let mut sink = Vec::new(alloc);
    same(rt, written(model, &mut sink), true);
    holds(rt, &sink, &[5]);
    same(rt, too_large_was_written(model, &mut sink), false);
    let pairs = back(alloc, model).expect(rt, "pairs");
    holds(rt, &pairs, &[(1, 2)]);
    let found = replies(alloc, model).expect(rt, "replies");
    same(rt, found.len(), 3);
}

#[test]
fn contracts_leave_one_result(rt: HostRuntime) {
    let model = of_four(rt.alloc(), [3, 18, 1, 42]).expect(&rt, "accepted");
    leaves_one_result(&rt, rt.alloc(), &model);
}

#[test]
fn contracts_leave_one_result_in_a_cursor(rt: HostRuntime) {
    let model = of_four(rt.alloc(), [3, 18, 1, 42]).expect(&rt, "accepted");
    let mut cursor = at_0(rt.alloc()).expect(&rt, "a cursor");
    let pairs = through_a_cursor(rt.alloc(), &model, &mut cursor);
    same(&rt, pairs.is_some(), true);
}

#[test]
fn contracts_leave_one_reply_after_a_chain(rt: HostRuntime) {
    let model = decoder_of(rt.alloc(), ['a', 'x', 'c', 'y'], [3, 18, 1, 42]);
    let model = model.expect(&rt, "accepted");
    let encoder = encoder_of(rt.alloc(), &model).expect(&rt, "an encoder");
    let found = replies_after(rt.alloc(), DecoderForm::Search(model), &encoder);
    let (made, replies) = found.expect(&rt, "replies");
    same(&rt, matches!(made, DecoderForm::Lookup(_)), true);
    same(&rt, replies.len(), 2);
}

#[test]
fn contracts_leave_one_run(rt: HostRuntime) {
    let words = [CursorReply::Word(Some(10)), CursorReply::Written];
    let mut cursor = at_1(rt.alloc()).expect(&rt, "a cursor");
    let found = calls(rt.alloc(), &mut cursor).expect(&rt, "replies");
    holds(&rt, &found, &words);
    same(
        &rt,
        was_sought(&mut at_1(rt.alloc()).expect(&rt, "a cursor")),
        true,
    );
    let mut turned = at_1_turned(rt.alloc()).expect(&rt, "a cursor");
    same(&rt, room_of_turned(&turned), 2);
    let found = turned_calls(rt.alloc(), &mut turned).expect(&rt, "replies");
    holds(&rt, &found, &words);
}
