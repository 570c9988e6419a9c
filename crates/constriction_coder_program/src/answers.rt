//! The answer to a line.

ghost use Rattle.constriction.specs.Precision.{IsPrecision};

use crate::coding::{
    Refusal, queue_decode, queue_encode, stack_decode, stack_encode, to_symbols, to_words,
};
use crate::line::{Call, Request, parse_request};
use std::alloc::{AllocError, Global};
use std::fmt::{Display, Write};

/// What a line asked for.
#[derive(Drop)]
enum Answer {
    Words(Vec<u32>),
    Symbols(Vec<usize>),
}

/// The words that a line asks for, at a precision.
fn encoded_at<const PRECISION: usize>(alloc: Global, request: &Request) -> Result<Vec<u32>, Refusal>
    requires { IsPrecision 32 PRECISION }
{
    let symbols = to_symbols(alloc, &request.numbers)?;
    if request.call == Call::StackEncode {
        stack_encode::<PRECISION>(alloc, &request.weights, &symbols)
    } else {
        queue_encode::<PRECISION>(alloc, &request.weights, &symbols)
    }
}

/// The symbols that a line asks for, at a precision.
fn decoded_at<const PRECISION: usize>(
    alloc: Global,
    request: &Request,
) -> Result<Vec<usize>, Refusal>
    requires { IsPrecision 32 PRECISION }
{
    let Some(words) = to_words(alloc, &request.numbers)? else {
        return Err(Refusal::BadLine);
    };
    if request.call == Call::StackDecode {
        stack_decode::<PRECISION>(alloc, &request.weights, request.count, words)
    } else {
        queue_decode::<PRECISION>(alloc, &request.weights, request.count, words)
    }
}

/// The answer at a precision.
fn answer_at<const PRECISION: usize>(alloc: Global, request: &Request) -> Result<Answer, Refusal>
    requires { IsPrecision 32 PRECISION }
{
    if request.call.is_decode() {
        let symbols = decoded_at::<PRECISION>(alloc, request)?;
        Ok(Answer::Symbols(symbols))
    } else {
        let words = encoded_at::<PRECISION>(alloc, request)?;
        Ok(Answer::Words(words))
    }
}

/// The answer at the precision that the line names.
fn answered(alloc: Global, line: &[u8]) -> Result<Answer, Refusal> {
    let Some(request) = parse_request(alloc, line)? else {
        return Err(Refusal::BadLine);
    };
    match request.precision {
        12 => answer_at::<12>(alloc, &request),
        16 => answer_at::<16>(alloc, &request),
        24 => answer_at::<24>(alloc, &request),
        32 => answer_at::<32>(alloc, &request),
        _ => Err(Refusal::BadLine),
    }
}

/// Adds a line of numbers, which are words or symbols.
fn push_number_line<N: Display>(text: &mut String, numbers: &[N]) -> Result<(), AllocError> {
    let mut first = true;
    for number in numbers {
        if !first {
            text.push_str(" ")?;
        }
        write!(text, "{number}")?;
        first = false;
    }
    text.push_str("\n")
}

/// Adds the answer to a line. If memory is refused, a part of it may have been added.
pub(crate) fn push_answer_to_call(
    alloc: Global,
    text: &mut String,
    line: &[u8],
) -> Result<(), AllocError> {
    match answered(alloc, line) {
        Ok(Answer::Words(words)) => push_number_line(text, &words),
        Ok(Answer::Symbols(symbols)) => push_number_line(text, &symbols),
        Err(Refusal::BadLine) => text.push_str("bad line\n"),
        Err(Refusal::Invalid) => text.push_str("invalid\n"),
        Err(Refusal::ImpossibleSymbol) => text.push_str("none\n"),
        Err(Refusal::EndsInZero) => text.push_str("refused\n"),
        Err(Refusal::Damaged) => text.push_str("damaged\n"),
        Err(Refusal::OutOfMemory) => Err(AllocError),
    }
}
