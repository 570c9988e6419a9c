//! Lines of text, and what they ask for.

ghost use Rattle.std.specs.Prelude.{◌≡◌, ◌==◌, ◌∷◌, ◌<◌, IfOk, IfSome, IfNone, length, option_and_then, position};
ghost use Rattle.std.specs.List.{slice_split};
ghost use Rattle.std.specs.Option.{option_copied, option_map};
ghost use Rattle.constriction_text.specs.Grammar.{Request, Spells, format_of, view};
ghost use Rattle.constriction_text.specs.Words.{parts_of, read_number};
ghost use Rattle.constriction_text.specs.private.Parts.{first_and_others, only_number};
ghost use Rattle.constriction_text.specs.private.Reading.{read_format, read_line};
ghost use Rattle.constriction_text.specs.private.Reading.{read_numbers, read_request};

use std::alloc::{AllocError, Global};

/// The type of the probabilities of a model, and its precision.
#[derive(Clone, Copy, Debug, PartialEq, Eq)]
pub enum Format {
    /// `u8/6`: probabilities are `u8`, and they sum to `2^6`.
    U8Precision6,
    /// `u8/8`: probabilities are `u8`, and they sum to `2^8`.
    U8Precision8,
    /// `u16/12`: probabilities are `u16`, and they sum to `2^12`.
    U16Precision12,
}

/// What a line asks for.
#[derive(Debug, Drop)]
pub enum Command {
    /// `table FORMAT W..`: all rows of the weights.
    Table {
        format: Format,
        weights: Vec<u64>,
    },
    /// `infer FORMAT W..`: all rows of the weights and of the remainder.
    Infer {
        format: Format,
        weights: Vec<u64>,
    },
    /// `quantile FORMAT Q W..`: the row of a quantile.
    Quantile {
        format: Format,
        quantile: u64,
        weights: Vec<u64>,
    },
    /// `symbol FORMAT S W..`: the row of a symbol.
    Symbol {
        format: Format,
        symbol: u64,
        weights: Vec<u64>,
    },
    /// `uniform FORMAT N`: all rows of the uniform model of the symbols `0..range`.
    Uniform {
        format: Format,
        range: u64,
    },
}

impl Command {
    /// The format that the line names.
    pub fn format(&self) -> Format
        ensures { result ≡ format_of (view self.now) }
    {
        match self {
            Command::Table { format, .. } => *format,
            Command::Infer { format, .. } => *format,
            Command::Quantile { format, .. } => *format,
            Command::Symbol { format, .. } => *format,
            Command::Uniform { format, .. } => *format,
        }
    }
}

/// The index of the first separator.
fn find_separator(bytes: &[u8], separator: u8) -> Option<usize>
    ensures { result ≡ position (λ byte. byte == separator) bytes.now }
{
    bytes.iter().position(|byte| *byte == separator)
}

/// The bytes before the first separator, and those after it. Without a separator, all of the bytes.
pub fn cut(bytes: &[u8], separator: u8) -> (&[u8], Option<&[u8]>)
    ensures parts { slice_split (λ byte. byte == separator) bytes.now
        ≡ result.0.now ∷ parts_of separator (option_copied result.1) }
    ensures shorter { IfSome result.1 (λ after. length after.now < length bytes.now) }
    ensures whole { IfNone result.1 (result.0.now ≡ bytes.now) }
{
    match find_separator(bytes, separator) {
        Some(at) => (&bytes[..at], Some(&bytes[at + 1..])),
        None => (bytes, None),
    }
}

/// The byte between two words of a line.
const SPACE: u8 = b' ';

/// The most digits of a number.
const DIGITS: usize = 20;

/// The number that a word of one to twenty digits spells, if it is below `2^64`. Zeros may lead it.
#[tactic(auto, unfolding(crate::specs::Words::read_number))]
pub fn parse_number(word: &[u8]) -> Option<u64>
    ensures { result ≡ read_number word.now }
{
    if word.is_empty() || word.len() > DIGITS {
        return None;
    }
    let mut value = 0u64;
    for byte in word {
        if !byte.is_ascii_digit() {
            return None;
        }
        value = value.checked_mul(10)?.checked_add(u64::from(*byte - b'0'))?;
    }
    Some(value)
}

/// The format that a word names.
#[tactic(auto, unfolding(crate::specs::private::Reading::read_format))]
fn parse_format(word: &[u8]) -> Option<Format>
    ensures { result ≡ read_format word.now }
{
    if word == b"u8/6".as_slice() {
        return Some(Format::U8Precision6);
    }
    if word == b"u8/8".as_slice() {
        return Some(Format::U8Precision8);
    }
    if word == b"u16/12".as_slice() {
        return Some(Format::U16Precision12);
    }
    None
}

/// The numbers that the words of the rest of a line spell, if each of them spells one.
fn parse_numbers(alloc: Global, text: Option<&[u8]>) -> Result<Option<Vec<u64>>, AllocError>
    ensures { IfOk result (λ numbers. option_map (λ list. list.items) numbers
        ≡ read_numbers (parts_of 32 (option_copied text.entry))) }
{
    let mut numbers = Vec::new(alloc);
    let mut rest = text;
    while let Some(words) = rest {
        let (word, after) = cut(words, SPACE);
        match parse_number(word) {
            Some(number) => numbers.push(number)?,
            None => return Ok(None),
        }
        rest = after;
    }
    Ok(Some(numbers))
}

/// The first number of the rest of a line, and the others, if there is a first one and each word
/// spells a number.
#[tactic(auto, unfolding(crate::specs::private::Reading::read_numbers))]
fn parse_first_and_others(
    alloc: Global,
    text: Option<&[u8]>,
) -> Result<Option<(u64, Vec<u64>)>, AllocError>
    ensures { IfOk result (λ found. option_map (λ numbers. (numbers.0, numbers.1.items)) found
        ≡ option_and_then first_and_others
        (read_numbers (parts_of 32 (option_copied text.entry)))) }
{
    let Some(words) = text else {
        return Ok(None);
    };
    let (word, after) = cut(words, SPACE);
    let Some(first) = parse_number(word) else {
        return Ok(None);
    };
    match parse_numbers(alloc, after)? {
        Some(others) => Ok(Some((first, others))),
        None => Ok(None),
    }
}

/// The number that the rest of a line spells, if that is a single number.
#[tactic(auto, unfolding(crate::specs::private::Reading::read_numbers))]
fn parse_only_number(text: Option<&[u8]>) -> Option<u64>
    ensures { result
        ≡ option_and_then only_number (read_numbers (parts_of 32 (option_copied text.entry))) }
{
    let Some(words) = text else {
        return None;
    };
    let (word, after) = cut(words, SPACE);
    match after {
        Some(_) => None,
        None => parse_number(word),
    }
}

/// What a keyword asks for with a format and the rest of a line.
#[tactic(auto, unfolding(crate::specs::private::Reading::read_request))]
fn parse_command(
    alloc: Global,
    keyword: &[u8],
    format: Format,
    text: Option<&[u8]>,
) -> Result<Option<Command>, AllocError>
    ensures { IfOk result (λ found. option_map view found ≡ option_and_then
        (read_request keyword.now format) (read_numbers (parts_of 32 (option_copied text.entry)))) }
{
    if keyword == b"table".as_slice() {
        return match parse_numbers(alloc, text)? {
            Some(weights) => Ok(Some(Command::Table { format, weights })),
            None => Ok(None),
        };
    }
    if keyword == b"infer".as_slice() {
        return match parse_numbers(alloc, text)? {
            Some(weights) => Ok(Some(Command::Infer { format, weights })),
            None => Ok(None),
        };
    }
    if keyword == b"quantile".as_slice() {
        return match parse_first_and_others(alloc, text)? {
            Some((quantile, weights)) => Ok(Some(Command::Quantile {
                format,
                quantile,
                weights,
            })),
            None => Ok(None),
        };
    }
    if keyword == b"symbol".as_slice() {
        return match parse_first_and_others(alloc, text)? {
            Some((symbol, weights)) => Ok(Some(Command::Symbol {
                format,
                symbol,
                weights,
            })),
            None => Ok(None),
        };
    }
    if keyword == b"uniform".as_slice() {
        return match parse_only_number(text) {
            Some(range) => Ok(Some(Command::Uniform { format, range })),
            None => Ok(None),
        };
    }
    Ok(None)
}

/// What a line asks for, as `read_line` reads it.
fn parse_line(alloc: Global, line: &[u8]) -> Result<Option<Command>, AllocError>
    ensures { IfOk result (λ found. option_map view found ≡ read_line line.now) }
{
    let (keyword, after) = cut(line, SPACE);
    let Some(text) = after else {
        return Ok(None);
    };
    let (word, numbers) = cut(text, SPACE);
    match parse_format(word) {
        Some(format) => parse_command(alloc, keyword, format, numbers),
        None => Ok(None),
    }
}

/// What a line asks for, or `None` if it spells no request. The line is given without the byte 10
/// that ends it.
///
/// The words are read once, from left to right, and only the numbers take memory.
pub fn parse(alloc: Global, line: &[u8]) -> Result<Option<Command>, AllocError>
    ensures found { IfOk result (λ found. IfSome found (λ command.
        Spells line.now (view command))) }
    ensures none { IfOk result (λ found.
        IfNone found ((request : Request) → ¬ (Spells line.now request))) }
{
    parse_line(alloc, line)
}
