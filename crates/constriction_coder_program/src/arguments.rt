//! The arguments, and what they ask for.

use constriction_pack::Level;
use constriction_text::parse_number;
use std::fmt::{self, Display, Formatter};

/// What is done.
#[derive(Clone, Copy, PartialEq, Eq)]
pub(crate) enum Action {
    Help,
    Lines,
    Pack,
    Unpack,
    Test,
}

impl Action {
    /// Whether it writes a file.
    fn has_output(self) -> bool {
        self == Action::Pack || self == Action::Unpack
    }

    /// The arguments that it takes.
    fn expected(self) -> &'static str {
        match self {
            Action::Help | Action::Lines => "pack, unpack, test, --help, or none",
            Action::Pack => "pack [--fast|--best] [FILE] [-o OUTPUT] [-f]",
            Action::Unpack => "unpack [--limit BYTES] [FILE] [-o OUTPUT] [-f]",
            Action::Test => "test [FILE]",
        }
    }
}

/// The arguments, each of which was given at most once.
#[derive(Clone, Copy)]
pub(crate) struct Arguments<'a> {
    pub(crate) action: Action,
    pub(crate) level: Option<Level>,
    /// The most bytes that are written.
    pub(crate) limit: Option<u64>,
    /// The name of the input, unless it is standard input.
    pub(crate) input: Option<&'a str>,
    /// The name of the output, unless it is standard output.
    pub(crate) output: Option<&'a str>,
    /// Whether an output that exists is overwritten.
    pub(crate) force: bool,
}

impl<'a> Arguments<'a> {
    fn new(action: Action) -> Self {
        Arguments {
            action,
            level: None,
            limit: None,
            input: None,
            output: None,
            force: false,
        }
    }

    /// What messages call the input.
    pub(crate) fn input_name(&self) -> &'a str {
        self.input.unwrap_or("standard input")
    }

    /// What messages call the output.
    pub(crate) fn output_name(&self) -> &'a str {
        self.output.unwrap_or("standard output")
    }
}

/// What the next argument is.
#[derive(Clone, Copy, PartialEq, Eq)]
enum Next {
    OptionOrFile,
    File,
    Limit,
    Output,
}

/// Why arguments are refused.
#[derive(Clone, Copy)]
pub(crate) struct Misuse<'a> {
    action: Action,
    argument: &'a str,
    /// Whether it is refused because nothing follows it.
    is_last: bool,
}

impl Display for Misuse<'_> {
    fn fmt<W: fmt::Write>(&self, f: &mut Formatter<W>) -> fmt::Result {
        let problem = if self.is_last {
            "nothing follows"
        } else {
            "unexpected argument"
        };
        let argument = self.argument;
        let expected = self.action.expected();
        write!(f, "{problem} \"{argument}\"; expected: {expected}")
    }
}

fn action_of(argument: &str) -> Option<Action> {
    if argument == "pack" {
        return Some(Action::Pack);
    }
    if argument == "unpack" {
        return Some(Action::Unpack);
    }
    if argument == "test" {
        return Some(Action::Test);
    }
    None
}

fn is_help(argument: &str) -> bool {
    argument == "-h" || argument == "--help"
}

/// The level that an option of `pack` names.
fn level_of(argument: &str) -> Option<Level> {
    if argument == "--fast" {
        return Some(Level::Fast);
    }
    if argument == "--best" {
        return Some(Level::Best);
    }
    None
}

/// Takes an option, and answers what comes next, or `None` if it is not expected.
fn take_option(arguments: &mut Arguments, argument: &str) -> Option<Next> {
    if argument == "--" {
        return Some(Next::File);
    }
    if arguments.action == Action::Pack && arguments.level.is_none() {
        arguments.level = level_of(argument);
        if arguments.level.is_some() {
            return Some(Next::OptionOrFile);
        }
    }
    if argument == "--limit" && arguments.action == Action::Unpack && arguments.limit.is_none() {
        return Some(Next::Limit);
    }
    if !arguments.action.has_output() {
        return None;
    }
    if argument == "-o" && arguments.output.is_none() {
        return Some(Next::Output);
    }
    if (argument == "-f" || argument == "--force") && !arguments.force {
        arguments.force = true;
        return Some(Next::OptionOrFile);
    }
    None
}

/// Takes an argument, and answers what comes next, or `None` if it is not expected.
fn take<'a>(arguments: &mut Arguments<'a>, next: Next, argument: &'a str) -> Option<Next> {
    match next {
        Next::Limit => {
            arguments.limit = Some(parse_number(argument.as_bytes())?);
            return Some(Next::OptionOrFile);
        }
        Next::Output => {
            arguments.output = Some(argument);
            return Some(Next::OptionOrFile);
        }
        Next::OptionOrFile => {
            if argument != "-" && argument.starts_with('-') {
                return take_option(arguments, argument);
            }
        }
        Next::File => {}
    }
    if arguments.input.is_some() {
        return None;
    }
    arguments.input = Some(argument);
    Some(next)
}

/// A name, unless it is `-`, which stands for standard input or output.
fn named(name: Option<&str>) -> Option<&str> {
    if name == Some("-") { None } else { name }
}

/// What arguments ask for, the program's name not among them.
pub(crate) fn parse_arguments<'a>(words: &'a [String]) -> Result<Arguments<'a>, Misuse<'a>> {
    let Some((first, others)) = words.split_first() else {
        return Ok(Arguments::new(Action::Lines));
    };
    let argument = first.as_str();
    if is_help(argument) {
        return Ok(Arguments::new(Action::Help));
    }
    let Some(action) = action_of(argument) else {
        return Err(Misuse {
            action: Action::Help,
            argument,
            is_last: false,
        });
    };
    let mut arguments = Arguments::new(action);
    let mut next = Next::OptionOrFile;
    let mut argument = argument;
    for word in others {
        argument = word.as_str();
        if next == Next::OptionOrFile && is_help(argument) {
            return Ok(Arguments::new(Action::Help));
        }
        let Some(after) = take(&mut arguments, next, argument) else {
            return Err(Misuse {
                action,
                argument,
                is_last: false,
            });
        };
        next = after;
    }
    if next == Next::Limit || next == Next::Output {
        return Err(Misuse {
            action,
            argument,
            is_last: true,
        });
    }
    arguments.input = named(arguments.input);
    arguments.output = named(arguments.output);
    Ok(arguments)
}
