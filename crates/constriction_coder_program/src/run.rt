//! A run over a reader and a writer.

use crate::answers::push_answer_to_call;
use constriction_io::write_whole;
use constriction_text::{RunFault, first_line, read_input};
use std::alloc::Global;
use std::io::{BufWriter, Read, Write};

/// Writes the answers to the lines of an input.
fn write_answers_to_calls<W: Write>(
    alloc: Global,
    input: &[u8],
    writer: &mut W,
) -> Result<(), RunFault> {
    let mut text = String::new(alloc);
    let mut rest = input;
    while !rest.is_empty() {
        let (line, after) = first_line(rest);
        text.clear();
        if push_answer_to_call(alloc, &mut text, line).is_err() {
            return Err(RunFault::OutOfMemory);
        }
        write_whole(writer, text.as_bytes())?;
        rest = after;
    }
    match writer.flush() {
        Ok(()) => Ok(()),
        Err(_) => Err(RunFault::Write),
    }
}

/// Reads an input to its end, and writes the answers to its lines.
pub(crate) fn run_lines<R: Read, W: Write + Drop>(
    alloc: Global,
    reader: &mut R,
    writer: W,
) -> Result<(), RunFault> {
    let input = read_input(alloc, reader)?;
    match BufWriter::new(alloc, writer) {
        Ok(mut writer) => write_answers_to_calls(alloc, &input, &mut writer),
        Err(_) => Err(RunFault::OutOfMemory),
    }
}
