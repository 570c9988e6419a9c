//! What stops the packing or unpacking of a file.

use constriction_pack::PackError;
use std::fmt::{self, Display, Formatter};
use std::io::{self, ErrorKind};
use thiserror::Error;

/// What stops it.
#[derive(Clone, Copy, Debug, Drop, Error)]
pub(crate) enum Fault {
    #[error("{0}")]
    System(io::Error),
    #[error("{0}")]
    Pack(PackError),
    #[error("it exists already, and is not overwritten")]
    Exists,
    #[error("it is no regular file, and is not overwritten")]
    NotRegular,
    #[error("packed bytes are not written to a terminal")]
    Terminal,
}

/// A fault, and the name of what it is about.
#[derive(Clone, Copy)]
pub(crate) struct Failure<'a> {
    pub(crate) name: &'a str,
    pub(crate) fault: Fault,
}

impl Failure<'_> {
    /// The exit status: 1, 2 or 3.
    pub(crate) fn status(&self) -> u8 {
        match &self.fault {
            Fault::System(error) if error.kind() == ErrorKind::OutOfMemory => 3,
            Fault::System(_) => 1,
            Fault::Pack(fault) => fault.status(),
            Fault::Exists | Fault::NotRegular | Fault::Terminal => 2,
        }
    }
}

impl Display for Failure<'_> {
    fn fmt<W: fmt::Write>(&self, f: &mut Formatter<W>) -> fmt::Result {
        let name = self.name;
        let fault = self.fault;
        write!(f, "{name}: {fault}")
    }
}
