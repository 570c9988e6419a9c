//! Sources over iterators and sinks over callbacks.

ghost use Rattle.std.specs.Prelude.{◌≡◌, ◌↔◌, ◌+◌, ◌-◌, ◌/◌, ◌≤◌, length, slice_get, None, Ok, Err};
ghost use Rattle.std.specs.Option.{option_map};

use crate::checks::{same, vec_of};
use constriction_backends::{
    AsSeekReadWords, BoundedReadWords, FallibleCallbackWriteWords, FallibleIteratorReadWords,
    InfallibleCallbackWriteWords, InfallibleIteratorReadWords, IntoReadWords, ReadWords,
    WriteWords, laws,
};
use constriction_words::{Queue, UnwrapInfallible};
use std::convert::Infallible;
use std::ops::Range;

/// The first word of a slice, read by a source over its iterator.
fn first_of(words: &[u8]) -> Option<u8>
    ensures { result ≡ slice_get words.now 0 }
{
    let mut source = InfallibleIteratorReadWords::new(words.iter().copied());
    ReadWords::<u8, Queue>::read(&mut source).unwrap_infallible()
}

/// The same for a `Vec`, which the source takes.
fn first_of_vec(words: Vec<u8>) -> Option<u8>
    ensures { result ≡ slice_get words.items 0 }
{
    let mut source = InfallibleIteratorReadWords::new(words);
    ReadWords::<u8, Queue>::read(&mut source).unwrap_infallible()
}

/// Half of the first word of a slice.
fn first_half_of(words: &[u8]) -> Option<u8>
    ensures { result ≡ option_map (λ word. word / 2) (slice_get words.now 0) }
{
    let mut source = InfallibleIteratorReadWords::new(words.iter().map(|word| *word / 2));
    ReadWords::<u8, Queue>::read(&mut source).unwrap_infallible()
}

/// The first word of a `Vec` that turns into a source.
fn first_turned(words: Vec<u8>) -> Option<u8>
    ensures { result ≡ slice_get words.items 0 }
{
    let mut source = IntoReadWords::<u8, Queue>::into_read_words(words);
    ReadWords::<u8, Queue>::read(&mut source).unwrap_infallible()
}

/// The first word of a slice that lends a source.
fn first_lent(words: &[u8]) -> Option<u8>
    ensures { result ≡ slice_get words.now 0 }
{
    let mut source = AsSeekReadWords::<u8, Queue>::as_seek_read_words(&words);
    ReadWords::<u8, Queue>::read(&mut source).unwrap_infallible()
}

#[test]
fn callers_know_which_word_comes_first(rt: HostRuntime) {
    let words = [8u8, 7];
    same(
        &rt,
        [
            first_of(&words),
            first_of(&[]),
            first_of_vec(vec_of(&rt, rt.alloc(), &words)),
            first_half_of(&words),
            first_turned(vec_of(&rt, rt.alloc(), &words)),
            first_lent(&words),
        ],
        [Some(8), None, Some(8), Some(4), Some(8), Some(8)],
    );
}

/// The sum of two words, by a callback.
fn sum_of_two(first: u8, second: u8) -> u32
    ensures { result ≡ first + second }
{
    let mut total = 0u32;
    let mut sink = InfallibleCallbackWriteWords::new(|word: u8| total = total.wrapping_add(
        u32::from(word),
    ));
    let _ = sink.write(first);
    let _ = sink.write(second);
    total
}

/// The wrapping sum of the words of a slice, by a callback.
fn sum_of(words: &[u8]) -> u32 {
    let mut total = 0u32;
    let mut sink = InfallibleCallbackWriteWords::new(|word: u8| total = total.wrapping_add(
        u32::from(word),
    ));
    let _ = sink.extend_from_iter(words.iter().copied());
    total
}

/// How often a callback that refuses its second word was called, and whether that word was refused.
fn calls_of_two(first: u8, second: u8) -> (u8, bool)
    ensures calls { result.0 ≡ 2 }
{
    let mut calls = 0u8;
    let mut sink = FallibleCallbackWriteWords::new(|word: u8| -> Result<(), u8> {
        calls = calls.saturating_add(1);
        if calls == 2 { Err(word) } else { Ok(()) }
    });
    let _ = sink.write(first);
    let refused = sink.write(second).is_err();
    (calls, refused)
}

type Read = Result<Option<u8>, Infallible>;

/// Two words, with an error between them.
const ITEMS: [Result<u8, char>; 3] = [Ok(1), Err('x'), Ok(2)];

type ReadItem = Result<Option<u8>, char>;

/// Two reads of a source whose count is right. The second one finds an item if two were left.
fn two_reads<Source: BoundedReadWords<u8, Queue>>(
    source: &mut Source,
) -> (
    Result<Option<u8>, Source::ReadError>,
    Result<Option<u8>, Source::ReadError>,
)
    requires can_read { Source.can_read source.old }
    requires exact { Source.is_exact source.old }
    ensures { (result.1 ≡ Ok None) ↔ (Source.items_left source.old ≤ 1) }
{
    laws::remaining_counts::<u8, Queue, Source>();
    (source.read(), source.read())
}

/// Two reads of the words of a slice.
fn two_of_slice(words: &[u8]) -> (Read, Read)
    ensures { (result.1 ≡ Ok None) ↔ (length words.now ≤ 1) }
{
    two_reads(&mut InfallibleIteratorReadWords::new(words.iter().copied()))
}

/// Two reads of the numbers of a range.
fn two_of_range(numbers: Range<u8>) -> (Read, Read)
    ensures { (result.1 ≡ Ok None) ↔ (numbers.end - numbers.start ≤ 1) }
{
    two_reads(&mut InfallibleIteratorReadWords::new(numbers))
}

/// Two reads of words and errors.
fn two_of_items(items: &[Result<u8, char>]) -> (ReadItem, ReadItem)
    ensures { (result.1 ≡ Ok None) ↔ (length items.now ≤ 1) }
{
    two_reads(&mut FallibleIteratorReadWords::new(items.iter().copied()))
}

#[test]
fn the_second_read_ends_where_one_item_was_left(rt: HostRuntime) {
    same(&rt, two_of_slice(&[5]), (Ok(Some(5)), Ok(None)));
    same(&rt, two_of_range(7..9), (Ok(Some(7)), Ok(Some(8))));
    same(&rt, two_of_items(&ITEMS), (Ok(Some(1)), Err('x')));
}

/// What a callback that counts its calls answers to the third call, after it was taken out of its
/// sink.
fn calls_of_three(word: u8) -> Result<(), u8>
    ensures { result ≡ Err 3 }
{
    let mut calls = 0u8;
    let mut sink = FallibleCallbackWriteWords::new(move |_: u8| -> Result<(), u8> {
        calls = calls.saturating_add(1);
        Err(calls)
    });
    let _ = sink.write(word);
    let _ = sink.write(word);
    let mut callback = sink.into_inner();
    callback(word)
}

#[test]
fn callers_know_what_their_callbacks_did(rt: HostRuntime) {
    same(&rt, [sum_of_two(250, 9), sum_of(&[1, 2, 3])], [259, 6]);
    same(&rt, calls_of_two(1, 2), (2, true));
    same(&rt, calls_of_three(7), Err(3));
}
