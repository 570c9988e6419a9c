//! Answers the lines of standard input on standard output.
#![tactic(auto)]

use constriction_text::run;
use std::io;
use std::process::ExitCode;

fn main(rt: HostRuntime) -> ExitCode {
    let mut reader = rt.reader();
    let mut writer = io::writer(&rt);
    match run(rt.alloc(), &mut reader, &mut writer) {
        Ok(()) => ExitCode::SUCCESS,
        Err(error) => {
            let _ = eprintln!(&rt; "rows: {error}");
            ExitCode::from(error.status())
        }
    }
}
