//! What contracts tell callers that parse lines, answer them, or run over whole inputs. A body that
//! answers otherwise does not meet these contracts.

ghost use Rattle.std.specs.Prelude.{◌≡◌, ◌≢◌, ◌≤◌, ◌++◌, ℕ, List, Err, IfOk, IsNone, OnOk, Some, codes, length, string_bytes};
ghost use Rattle.std.specs.Option.{option_map};
ghost use Rattle.constriction_text.specs.Grammar.{uniform, view};
ghost use Rattle.constriction_text.specs.Text.{IsTextOf};

use crate::checks::{holds, same};
use constriction_pack::unpack;
use constriction_text::laws::{
    a_line_has_one_answer, a_line_spells_at_most_one_request, an_input_has_one_text,
};
use constriction_text::{Command, Format, RunFault, answer, parse, run};
use std::alloc::{AllocError, Global};
use std::process::Abort;

/// A line of one letter is no request.
fn of_a_letter(alloc: Global) -> Result<Option<Command>, AllocError>
    ensures { IfOk result IsNone }
{
    parse(alloc, b"x")
}

/// A line with two ranges is no request.
fn of_two_ranges(alloc: Global) -> Result<Option<Command>, AllocError>
    ensures { IfOk result IsNone }
{
    parse(alloc, b"uniform u8/6 2 3")
}

/// A line with two spaces in a row is no request.
fn of_two_spaces(alloc: Global) -> Result<Option<Command>, AllocError>
    ensures { IfOk result IsNone }
{
    parse(alloc, b"table  u8/6 64")
}

/// A line with a number of 21 digits is no request.
fn of_many_digits(alloc: Global) -> Result<Option<Command>, AllocError>
    ensures { IfOk result IsNone }
{
    parse(alloc, b"table u8/6 000000000000000000064")
}

/// A line that spells a request is this request, since it spells no other one.
fn of_a_range(alloc: Global) -> Result<Option<Command>, AllocError>
    ensures { IfOk result (λ found. option_map view found ≡ Some (uniform Format.U8Precision8 3)) }
{
    a_line_spells_at_most_one_request();
    parse(alloc, b"uniform u8/8 3")
}

/// The answer to a line of one letter.
fn answer_to_a_letter(alloc: Global) -> Result<String, AllocError>
    ensures { IfOk result (λ text. string_bytes text ≡ codes "bad line\n") }
{
    a_line_has_one_answer();
    answer(alloc, b"x")
}

/// The answer to weights that a model accepts.
fn answer_to_weights(alloc: Global) -> Result<String, AllocError>
    ensures { IfOk result (λ text. string_bytes text ≡ codes "0 0 1\n1 1 63\n") }
{
    a_line_has_one_answer();
    answer(alloc, b"table u8/6 1 63")
}

/// The answer to weights that no model accepts.
fn answer_to_few_weights(alloc: Global) -> Result<String, AllocError>
    ensures { IfOk result (λ text. string_bytes text ≡ codes "invalid\n") }
{
    a_line_has_one_answer();
    answer(alloc, b"table u8/6 63")
}

/// The only text of an input of two letters.
fn text_of_letters()
    ensures { (text : List ℕ) → IsTextOf (codes "x\ny") text → text ≡ codes "bad line\nbad line\n" }
{
    an_input_has_one_text();
}

/// What a run over an input of two letters writes.
fn run_over_letters(alloc: Global, written: &mut Vec<u8>) -> Result<(), RunFault>
    ensures { OnOk result (written.new.items ≡ written.old.items ++ codes "bad line\nbad line\n") }
{
    an_input_has_one_text();
    let mut input = b"x\ny".as_slice();
    run(alloc, &mut input, written)
}

/// What a run over a letter answers.
fn answer_of_a_run(alloc: Global, written: &mut Vec<u8>) -> Result<(), RunFault>
    ensures { result ≢ Err RunFault.TooLong }
{
    let mut input = b"x".as_slice();
    run(alloc, &mut input, written)
}

/// Asserts whether a line is a request.
fn asks(rt: &impl Abort, found: Result<Option<Command>, AllocError>, is_request: bool) {
    match found {
        Ok(command) => same(rt, command.is_some(), is_request),
        Err(AllocError) => panic!(rt; "memory was refused"),
    }
}

/// What is unpacked of a file at a limit of 29 bytes.
fn first_29(alloc: Global, mut file: &[u8]) -> Vec<u8>
    ensures { length result.items ≤ 29 }
{
    let mut written = Vec::new(alloc);
    let _result = unpack(alloc, 29, &mut file, &mut written);
    written
}

#[test]
fn contracts_leave_a_beginning(rt: HostRuntime) {
    holds(&rt, &first_29(rt.alloc(), b"no file"), b"");
}

#[test]
fn contracts_leave_one_request(rt: HostRuntime) {
    let alloc = rt.alloc();
    asks(&rt, of_a_letter(alloc), false);
    asks(&rt, of_two_ranges(alloc), false);
    asks(&rt, of_two_spaces(alloc), false);
    asks(&rt, of_many_digits(alloc), false);
    asks(&rt, of_a_range(alloc), true);
}

/// Asserts that an answer is this text.
fn says(rt: &impl Abort, answer: Result<String, AllocError>, text: &str) {
    match answer {
        Ok(found) => same(rt, found.as_str(), text),
        Err(AllocError) => panic!(rt; "memory was refused"),
    }
}

#[test]
fn contracts_leave_one_answer(rt: HostRuntime) {
    let alloc = rt.alloc();
    says(&rt, answer_to_a_letter(alloc), "bad line\n");
    says(&rt, answer_to_weights(alloc), "0 0 1\n1 1 63\n");
    says(&rt, answer_to_few_weights(alloc), "invalid\n");
}

#[test]
fn contracts_leave_one_text(rt: HostRuntime) {
    let mut written = Vec::new(rt.alloc());
    same(&rt, run_over_letters(rt.alloc(), &mut written), Ok(()));
    holds(&rt, &written, b"bad line\nbad line\n");
    text_of_letters();
    same(&rt, answer_of_a_run(rt.alloc(), &mut written), Ok(()));
}
