//! Runs over readers and writers of a caller's own, that give or take one byte at a time and fail.

use crate::checks::same;
use constriction_text::{RunFault, run};
use std::alloc::Global;
use std::io::{self, ErrorKind, Read, Write};
use std::process::Abort;

/// The greatest number of bytes that an input may have.
pub const LIMIT: usize = 1_048_576;

/// Is interrupted every other time. Gives one byte the other times, and fails once, after `turns`
/// of them. If it is asked again, it gives the rest.
#[derive(Drop)]
pub(crate) struct SlowReader<'a> {
    pub(crate) rest: &'a [u8],
    pub(crate) turns: usize,
    pub(crate) is_interrupted: bool,
}

impl Read for SlowReader<'_> {
    fn read(&mut self, buf: &mut [u8]) -> io::Result<usize> {
        self.is_interrupted = !self.is_interrupted;
        if self.is_interrupted {
            return Err(io::Error::from(ErrorKind::Interrupted));
        }
        if self.turns == 0 {
            self.turns = usize::MAX;
            return Err(io::Error::from(ErrorKind::BrokenPipe));
        }
        self.turns -= 1;
        let Some((first, rest)) = self.rest.split_first() else {
            return Ok(0);
        };
        if buf.is_empty() {
            return Ok(0);
        }
        buf[0] = *first;
        self.rest = rest;
        Ok(1)
    }
}

/// Is interrupted every other time. Takes one byte the other times, and fails once, after `turns`
/// of them. If it is asked again, it takes the rest.
#[derive(Drop)]
pub(crate) struct SlowWriter {
    pub(crate) taken: Vec<u8>,
    pub(crate) turns: usize,
    pub(crate) is_interrupted: bool,
}

impl Write for SlowWriter {
    fn write(&mut self, buf: &[u8]) -> io::Result<usize> {
        self.is_interrupted = !self.is_interrupted;
        if self.is_interrupted {
            return Err(io::Error::from(ErrorKind::Interrupted));
        }
        if self.turns == 0 {
            self.turns = usize::MAX;
            return Err(io::Error::from(ErrorKind::BrokenPipe));
        }
        self.turns -= 1;
        let Some(first) = buf.first() else {
            return Ok(0);
        };
        match self.taken.push(*first) {
            Ok(()) => Ok(1),
            Err(_) => Err(io::Error::from(ErrorKind::OutOfMemory)),
        }
    }

    fn flush(&mut self) -> io::Result<()> {
        Ok(())
    }
}

/// Runs over an input, and writes to a `Vec`.
pub fn run_at_once(alloc: Global, mut input: &[u8], written: &mut Vec<u8>) -> Result<(), RunFault> {
    run(alloc, &mut input, written)
}

/// Runs over an input that is read byte by byte, and writes to a `Vec`.
pub fn run_slowly(
    alloc: Global,
    reader: &mut SlowReader,
    written: &mut Vec<u8>,
) -> Result<(), RunFault> {
    run(alloc, reader, written)
}

/// Asserts that each line of a text is this one.
pub fn are_lines(rt: &impl Abort, text: &[u8], expected: &[u8; 9]) {
    for line in text.chunks(9) {
        same(rt, line, expected.as_slice());
    }
}

/// `count` empty lines.
pub fn empty_lines(rt: &impl Abort, alloc: Global, count: usize) -> Vec<u8> {
    let Ok(lines) = vec![in alloc; b'\n'; count] else {
        panic!(rt; "memory was refused");
    };
    lines
}
