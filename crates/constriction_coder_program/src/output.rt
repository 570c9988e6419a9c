//! An output that gets its name once it is whole.

use crate::fault::Fault;
use crate::streams::Target;
use constriction_pack::PackError;
use std::fs::{self, File};
use std::io::ErrorKind;
use std::process;

/// Refuses an output that may not be written: one that exists, unless it is a regular file and
/// `force` holds.
fn check_output(rt: &HostRuntime, output: &str, force: bool) -> Result<(), Fault> {
    match fs::symlink_metadata(rt, output) {
        Ok(_) if !force => Err(Fault::Exists),
        Ok(found) if !found.is_file() => Err(Fault::NotRegular),
        Ok(_) => Ok(()),
        Err(error) if error.kind() == ErrorKind::NotFound => Ok(()),
        Err(error) => Err(Fault::System(error)),
    }
}

/// Gives a part its name. If `force` does not hold, the name is taken in one step, so that no file
/// of another program is lost; only a file system without links takes two.
pub(crate) fn publish(
    rt: &HostRuntime,
    part: &str,
    output: &str,
    force: bool,
) -> Result<(), Fault> {
    if !force {
        match fs::hard_link(rt, part, output) {
            Ok(()) => return fs::remove_file(rt, part).map_err(Fault::System),
            Err(error) if error.kind() == ErrorKind::AlreadyExists => return Err(Fault::Exists),
            Err(_) => check_output(rt, output, force)?,
        }
    }
    fs::rename(rt, part, output).map_err(Fault::System)
}

/// Makes a file beside the output, and answers its name too.
pub(crate) fn create_part(
    rt: &HostRuntime,
    output: &str,
    force: bool,
) -> Result<(String, Target<'static>), Fault> {
    check_output(rt, output, force)?;
    let process = process::id(rt.process());
    let Ok(part) = format!(in rt.alloc(); "{output}.{process}.part") else {
        return Err(Fault::Pack(PackError::OutOfMemory));
    };
    match File::create_new(rt, part.as_str()) {
        Ok(file) => Ok((part, Target::file(file))),
        Err(error) => Err(Fault::System(error)),
    }
}
