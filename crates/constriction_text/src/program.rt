//! A run over a reader and a writer.

ghost use Rattle.std.specs.Prelude.{◌≡◌, ◌≢◌, ◌<◌, ◌≤◌, ◌+◌, ◌++◌, ◌∷◌, ◌⊎◌, ℕ, List, Err, length};
ghost use Rattle.std.specs.Prelude.{IfOk, IfErr, OnOk, OnErr, string_bytes};
ghost use Rattle.std.specs.Io.KnownBytes.{Appends, Consumes, IsAtEnd, Keeps};
ghost use Rattle.constriction_text.specs.Runs.{limit, HasRead, HasReadAll, WritesBeginning};
ghost use Rattle.constriction_text.specs.Runs.{WritesAnswersBefore};
ghost use Rattle.constriction_text.specs.private.Collecting.{WritesFront};
ghost use Rattle.constriction_text.specs.private.Answering.{answer_to};
ghost use Rattle.constriction_text.specs.Text.{IsTextOf, lines_of};

use crate::answers::push_answer;
use crate::fault::RunFault;
use crate::line::cut;
use constriction_io::{read_up_to, write_whole};
use std::alloc::{AllocError, Global};
use std::io::{Read, Write};

/// The most bytes of an input.
const LIMIT: usize = 1_048_576;

/// Collected answers are written once they have this many bytes.
const FLUSH_AT: usize = 65_536;

/// Reads to the end, or to one byte past the limit of 1,048,576 bytes, and then fails with
/// `TooLong`. An interrupted read is tried again; after another error the reader is not called.
pub fn read_input<R: Read>(alloc: Global, reader: &mut R) -> Result<Vec<u8>, RunFault>
    ensures ok { IfOk result (λ input. (length input.items ≤ limit)
        × IsAtEnd (R.remaining reader.new)
        × Consumes (R.remaining reader.old) (R.remaining reader.new) input.items) }
    ensures too_long { result ≡ Err RunFault.TooLong →
        HasRead (R.remaining reader.old) (R.remaining reader.new) (λ input. limit < length input) }
    ensures err { OnErr result (HasRead (R.remaining reader.old) (R.remaining reader.new)
        (λ input. length input ≤ limit + 1)) }
    ensures errors { IfErr result (λ error. error ≢ RunFault.Write) }
{
    let mut input = Vec::new(alloc);
    read_up_to(reader, LIMIT + 1, &mut input)?;
    if input.len() > LIMIT {
        return Err(RunFault::TooLong);
    }
    Ok(input)
}

/// The first line of bytes, and what follows the byte 10 that ends it.
pub fn first_line(bytes: &[u8]) -> (&[u8], &[u8])
    requires { 0 < length bytes.now }
    ensures lines { lines_of bytes.now ≡ result.0.now ∷ lines_of result.1.now }
    ensures shorter { length result.1.now < length bytes.now }
{
    let (line, after) = cut(bytes, b'\n');
    match after {
        Some(rest) => (line, rest),
        None => (line, &[]),
    }
}

/// Collects the answer to a line. The answer is first made whole in `one`, whose memory is used
/// again, so if memory is refused, what was collected before stays.
fn collect_answer(
    alloc: Global,
    line: &[u8],
    one: &mut String,
    text: &mut String,
) -> Result<(), AllocError>
    ensures ok { OnOk result (string_bytes text.new ≡ string_bytes text.old ++ answer_to line.now) }
    ensures err { OnErr result (string_bytes text.new ≡ string_bytes text.old) }
{
    one.clear();
    push_answer(alloc, one, line)?;
    text.push_str(one.as_str())
}

/// If there are many bytes of collected answers, writes and then drops them.
fn write_many<W: Write>(writer: &mut W, text: &mut String) -> Result<(), RunFault>
    ensures ok { OnOk result (WritesFront (W.contents writer.old) (W.contents writer.new)
        (string_bytes text.old) (string_bytes text.new)) }
    ensures err { OnErr result (WritesBeginning (W.contents writer.old) (W.contents writer.new)
        (string_bytes text.old)) }
    ensures fault { OnErr result (result ≡ Err RunFault.Write) }
{
    if text.len() >= FLUSH_AT {
        write_whole(writer, text.as_bytes())?;
        text.clear();
    }
    Ok(())
}

/// Writes the answers that were collected before memory was refused, and answers the fault of the
/// run.
fn write_last<W: Write>(writer: &mut W, answers: &[u8]) -> RunFault
    ensures out_of_memory { result ≡ RunFault.OutOfMemory →
        Appends (W.contents writer.old) (W.contents writer.new) answers.now }
    ensures write { result ≡ RunFault.Write →
        WritesBeginning (W.contents writer.old) (W.contents writer.new) answers.now }
    ensures errors { (result ≢ RunFault.Read) × (result ≢ RunFault.TooLong) }
{
    match write_whole(writer, answers) {
        Ok(()) => RunFault::OutOfMemory,
        Err(_) => RunFault::Write,
    }
}

/// Writes the answers to the lines of an input. Each is made whole before a byte of it is written.
///
/// Answers are collected, and written whenever there are many bytes of them, and at the end.
fn write_answers<W: Write>(alloc: Global, input: &[u8], writer: &mut W) -> Result<(), RunFault>
    ensures ok { OnOk result ((text : List ℕ) × IsTextOf input.now text
        × Appends (W.contents writer.old) (W.contents writer.new) text) }
    ensures out_of_memory { result ≡ Err RunFault.OutOfMemory →
        WritesAnswersBefore (W.contents writer.old) (W.contents writer.new) input.now }
    ensures write { result ≡ Err RunFault.Write → (written rest : List ℕ)
        × IsTextOf input.now (written ++ rest)
        × Appends (W.contents writer.old) (W.contents writer.new) written }
    ensures errors { IfErr result (λ error. (error ≢ RunFault.Read) × (error ≢ RunFault.TooLong)) }
{
    let mut text = String::new(alloc);
    let mut one = String::new(alloc);
    let mut rest = input;
    while !rest.is_empty() {
        let (line, after) = first_line(rest);
        match collect_answer(alloc, line, &mut one, &mut text) {
            Ok(()) => {}
            Err(_) => return Err(write_last(writer, text.as_bytes())),
        }
        write_many(writer, &mut text)?;
        rest = after;
    }
    write_whole(writer, text.as_bytes())?;
    Ok(())
}

/// Reads an input to its end, and writes the answers to its lines.
///
/// The writer is not flushed: give one that holds nothing back. An input has at most 1,048,576
/// bytes; of a longer one, at most one byte more is read. An interrupted call is made again; after
/// another error of the reader or the writer, neither is called.
pub fn run<R: Read, W: Write>(alloc: Global, reader: &mut R, writer: &mut W) -> Result<(), RunFault>
    ensures ok { OnOk result (HasReadAll (R.remaining reader.old) (R.remaining reader.new)
        (λ input. (text : List ℕ) × IsTextOf input text
        × Appends (W.contents writer.old) (W.contents writer.new) text)) }
    ensures too_long { result ≡ Err RunFault.TooLong →
        HasRead (R.remaining reader.old) (R.remaining reader.new) (λ input. limit < length input) }
    ensures nothing_written { IfErr result (λ error. (error ≡ RunFault.Read)
        ⊎ (error ≡ RunFault.TooLong) → Keeps (W.contents writer.old) (W.contents writer.new)) }
    ensures out_of_memory { result ≡ Err RunFault.OutOfMemory
        → Keeps (W.contents writer.old) (W.contents writer.new)
        ⊎ HasReadAll (R.remaining reader.old) (R.remaining reader.new)
        (WritesAnswersBefore (W.contents writer.old) (W.contents writer.new)) }
    ensures write { result ≡ Err RunFault.Write
        → HasReadAll (R.remaining reader.old) (R.remaining reader.new)
        (λ input. (written rest : List ℕ) × IsTextOf input (written ++ rest)
        × Appends (W.contents writer.old) (W.contents writer.new) written) }
    ensures taken { HasRead (R.remaining reader.old) (R.remaining reader.new)
        (λ input. length input ≤ limit + 1) }
{
    let input = read_input(alloc, reader)?;
    write_answers(alloc, &input, writer)
}
