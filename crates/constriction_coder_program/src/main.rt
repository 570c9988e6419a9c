//! Answers lines of standard input on standard output: the words of a coder, or the symbols of such
//! words. Or packs, unpacks or tests a file.
#![tactic(auto)]

mod answers;
mod arguments;
mod coding;
mod fault;
mod help;
mod line;
mod output;
mod packing;
mod run;
mod streams;

use crate::arguments::{Action, Arguments, parse_arguments};
use crate::help::HELP;
use crate::run::run_lines;
use constriction_text::RunFault;
use std::env;
use std::io::{self, ErrorKind};
use std::process::ExitCode;

/// Answers the lines of standard input.
fn answer_lines(rt: &HostRuntime) -> Result<(), RunFault> {
    run_lines(rt.alloc(), &mut rt.reader(), io::writer(rt))
}

/// The exit code of a run, of which an error is said on standard error.
fn exit_code(rt: &HostRuntime, done: Result<(), RunFault>) -> ExitCode {
    match done {
        Ok(()) => ExitCode::SUCCESS,
        Err(error) => {
            let _ = eprintln!(rt; "coder: {error}");
            ExitCode::from(error.status())
        }
    }
}

/// Does what the arguments ask for.
fn run_action(rt: &HostRuntime, arguments: &Arguments) -> ExitCode {
    match arguments.action {
        Action::Help => exit_code(rt, rt.print(HELP).map_err(|_| RunFault::Write)),
        Action::Lines => exit_code(rt, answer_lines(rt)),
        Action::Pack | Action::Unpack | Action::Test => packing::pack_or_unpack(rt, arguments),
    }
}

/// The arguments after the program's name.
fn words(rt: &HostRuntime) -> io::Result<Vec<String>> {
    let words: Vec<String> = env::args(rt)?.skip(1).collect(rt.alloc())?;
    Ok(words)
}

fn main(rt: HostRuntime) -> ExitCode {
    let words = match words(&rt) {
        Ok(words) => words,
        Err(error) if error.kind() == ErrorKind::OutOfMemory => return exit_code(
            &rt,
            Err(RunFault::OutOfMemory),
        ),
        Err(_) => {
            let _ = eprintln!(rt; "coder: an argument is no UTF-8");
            return ExitCode::from(64);
        }
    };
    match parse_arguments(&words) {
        Ok(arguments) => run_action(&rt, &arguments),
        Err(error) => {
            let _ = eprintln!(rt; "coder: {error}");
            ExitCode::from(64)
        }
    }
}
