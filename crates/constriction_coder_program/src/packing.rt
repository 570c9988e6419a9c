//! Files packed, unpacked and tested, as the arguments ask.

use crate::arguments::{Action, Arguments};
use crate::fault::{Failure, Fault};
use crate::output::{create_part, publish};
use crate::streams::{Source, Target};
use constriction_pack::{Level, PackError, pack, unpack};
use std::fs;
use std::io::IsTerminal;
use std::process::ExitCode;

/// The fault, with what the system said of a read or write that failed, and the name of the file
/// that it is about.
fn failure_of<'a>(
    arguments: &Arguments<'a>,
    source: &Source,
    target: &Target,
    fault: PackError,
) -> Failure<'a> {
    let (name, error) = match fault {
        PackError::Read => (arguments.input_name(), source.error()),
        PackError::Write => (arguments.output_name(), target.error()),
        _ => (arguments.input_name(), None),
    };
    Failure {
        name,
        fault: error.map_or(Fault::Pack(fault), Fault::System),
    }
}

/// Packs or unpacks what the source has.
fn convert<'a>(
    rt: &HostRuntime,
    arguments: &Arguments<'a>,
    source: &mut Source,
    target: &mut Target,
) -> Result<(), Failure<'a>> {
    let done = if arguments.action == Action::Pack {
        let level = arguments.level.unwrap_or(Level::Default);
        pack(rt.alloc(), level, source, target)
    } else {
        let limit = arguments.limit.unwrap_or(u64::MAX);
        unpack(rt.alloc(), limit, source, target)
    };
    match done {
        Ok(()) => Ok(()),
        Err(error) => Err(failure_of(arguments, source, target, error)),
    }
}

/// Packs or unpacks into the part, and gives it the output's name.
fn convert_part<'a>(
    rt: &HostRuntime,
    arguments: &Arguments<'a>,
    source: &mut Source,
    part: &str,
    target: &mut Target,
    output: &'a str,
) -> Result<(), Failure<'a>> {
    convert(rt, arguments, source, target)?;
    let done = match target.sync() {
        Ok(()) => publish(rt, part, output, arguments.force),
        Err(error) => Err(Fault::System(error)),
    };
    done.map_err(|fault| Failure {
        name: output,
        fault,
    })
}

/// Packs or unpacks into a file, which gets its name once it is whole. After a failure nothing of
/// it is left.
fn convert_to_file<'a>(
    rt: &HostRuntime,
    arguments: &Arguments<'a>,
    source: &mut Source,
    output: &'a str,
) -> Result<(), Failure<'a>> {
    let (part, mut target) = match create_part(rt, output, arguments.force) {
        Ok(made) => made,
        Err(error) => {
            return Err(Failure {
                name: output,
                fault: error,
            });
        }
    };
    let done = convert_part(rt, arguments, source, part.as_str(), &mut target, output);
    if done.is_err() {
        let _ = fs::remove_file(rt, part.as_str());
    }
    done
}

/// Does what the arguments ask of the source.
fn run_on<'a>(
    rt: &HostRuntime,
    arguments: &Arguments<'a>,
    source: &mut Source,
) -> Result<(), Failure<'a>> {
    if arguments.action == Action::Test {
        return convert(rt, arguments, source, &mut Target::nothing());
    }
    if let Some(output) = arguments.output {
        return convert_to_file(rt, arguments, source, output);
    }
    if arguments.action == Action::Pack && rt.stdout().is_terminal() {
        return Err(Failure {
            name: arguments.output_name(),
            fault: Fault::Terminal,
        });
    }
    convert(rt, arguments, source, &mut Target::standard(rt))
}

/// Opens the source, and does what the arguments ask of it.
fn open_and_run<'a>(rt: &HostRuntime, arguments: &Arguments<'a>) -> Result<(), Failure<'a>> {
    match Source::open(rt, arguments.input) {
        Ok(mut source) => run_on(rt, arguments, &mut source),
        Err(error) => Err(Failure {
            name: arguments.input_name(),
            fault: Fault::System(error),
        }),
    }
}

/// Does what the arguments ask of a file, and answers the exit status.
pub(crate) fn pack_or_unpack(rt: &HostRuntime, arguments: &Arguments) -> ExitCode {
    match open_and_run(rt, arguments) {
        Ok(()) => ExitCode::SUCCESS,
        Err(error) => {
            let _ = eprintln!(rt; "coder: {error}");
            ExitCode::from(error.status())
        }
    }
}
