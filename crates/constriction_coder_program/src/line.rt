//! A line, and what it asks for.

use constriction_text::{cut, parse_number};
use std::alloc::{AllocError, Global};

/// What a line asks of a coder.
#[derive(Clone, Copy, PartialEq, Eq)]
pub(crate) enum Call {
    /// `stack-encode P W.. : S..`: the words of the stack coder for these symbols.
    StackEncode,
    /// `stack-decode P W.. : N : WORD..`: the `N` symbols that the stack coder decodes from these
    /// words.
    StackDecode,
    /// `queue-encode P W.. : S..`: the words of the range encoder for these symbols.
    QueueEncode,
    /// `queue-decode P W.. : N : WORD..`: the `N` symbols that the range decoder decodes from these
    /// words.
    QueueDecode,
}

impl Call {
    /// Whether it asks for symbols.
    pub(crate) fn is_decode(self) -> bool {
        match self {
            Call::StackDecode | Call::QueueDecode => true,
            Call::StackEncode | Call::QueueEncode => false,
        }
    }
}

/// A line that spells a call.
#[derive(Drop)]
pub(crate) struct Request {
    pub(crate) call: Call,
    pub(crate) precision: u64,
    pub(crate) weights: Vec<u64>,
    /// How many symbols are asked for; 0 if symbols are encoded.
    pub(crate) count: usize,
    /// The symbols or the words.
    pub(crate) numbers: Vec<u64>,
}

/// The byte between two words of a line.
const SPACE: u8 = b' ';

/// The most symbols that a line may ask for.
const MOST_SYMBOLS: u64 = 1_048_576;

/// Adds the numbers up to a colon, or up to the end if `to_colon` is false. Answers whether the
/// words are spelled so, and what follows the colon.
fn push_numbers<'a>(
    text: Option<&'a [u8]>,
    to_colon: bool,
    numbers: &mut Vec<u64>,
) -> Result<(bool, Option<&'a [u8]>), AllocError> {
    let mut rest = text;
    while let Some(words) = rest {
        let (word, after) = cut(words, SPACE);
        if to_colon && word == b":".as_slice() {
            return Ok((true, after));
        }
        match parse_number(word) {
            Some(number) => numbers.push(number)?,
            None => return Ok((false, None)),
        }
        rest = after;
    }
    Ok((!to_colon, None))
}

fn parse_call(word: &[u8]) -> Option<Call> {
    if word == b"stack-encode".as_slice() {
        return Some(Call::StackEncode);
    }
    if word == b"stack-decode".as_slice() {
        return Some(Call::StackDecode);
    }
    if word == b"queue-encode".as_slice() {
        return Some(Call::QueueEncode);
    }
    if word == b"queue-decode".as_slice() {
        return Some(Call::QueueDecode);
    }
    None
}

/// The call of a line, its precision and what follows.
fn parse_head(line: &[u8]) -> Option<(Call, u64, Option<&[u8]>)> {
    let (word, rest) = cut(line, SPACE);
    let call = parse_call(word)?;
    let (word, rest) = cut(rest?, SPACE);
    let precision = parse_number(word)?;
    Some((call, precision, rest))
}

/// What a line asks for, if it spells a call.
pub(crate) fn parse_request(alloc: Global, line: &[u8]) -> Result<Option<Request>, AllocError> {
    let Some((call, precision, rest)) = parse_head(line) else {
        return Ok(None);
    };
    let mut weights = Vec::new(alloc);
    let (spelled, mut rest) = push_numbers(rest, true, &mut weights)?;
    if !spelled {
        return Ok(None);
    }
    let mut count = 0u64;
    if call.is_decode() {
        let mut counts = Vec::new(alloc);
        let (spelled, after) = push_numbers(rest, true, &mut counts)?;
        if !spelled || counts.len() != 1 || counts[0] > MOST_SYMBOLS {
            return Ok(None);
        }
        count = counts[0];
        rest = after;
    }
    let mut numbers = Vec::new(alloc);
    let (spelled, _) = push_numbers(rest, false, &mut numbers)?;
    if !spelled {
        return Ok(None);
    }
    Ok(Some(Request {
        call,
        precision,
        weights,
        count: count as usize,
        numbers,
    }))
}
