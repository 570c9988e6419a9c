//! What is read and written: standard input and output, and files. Each keeps the error of its last
//! call.

use std::fs::File;
use std::io::{self, IsTerminal, Printer, Read, StdinLock, Write};
use std::time::{Duration, Instant};

/// What is read.
#[derive(Drop)]
enum Origin {
    Standard(StdinLock<'static>),
    File(File),
}

/// A reader that says once a second on standard error how much it has read, if that is a terminal
/// and the input is large.
#[derive(Drop)]
pub(crate) struct Source<'a> {
    origin: Origin,
    rt: &'a HostRuntime,
    is_watched: bool,
    read: u64,
    said: Option<Instant>,
    error: Option<io::Error>,
}

const MEBIBYTE: u64 = 1_048_576;

impl<'a> Source<'a> {
    /// Reads a file, or standard input.
    pub(crate) fn open(rt: &'a HostRuntime, name: Option<&str>) -> io::Result<Self> {
        let origin = match name {
            Some(name) => Origin::File(File::open(rt, name)?),
            None => Origin::Standard(rt.reader()),
        };
        Ok(Source {
            origin,
            rt,
            is_watched: rt.stderr().is_terminal(),
            read: 0,
            said: None,
            error: None,
        })
    }

    /// The error of the last read, if it failed.
    pub(crate) fn error(&self) -> Option<io::Error> {
        self.error
    }

    /// Says how much was read, if a second went by. It ignores errors of the clock and of standard
    /// error.
    fn say(&mut self) {
        let Ok(now) = Instant::now(self.rt) else {
            return;
        };
        match self.said {
            Some(said) if now.duration_since(said) < Duration::from_secs(1) => return,
            Some(_) => {
                let _ = eprintln!(self.rt; "coder: {} MiB read", self.read / MEBIBYTE);
            }
            None => {}
        }
        self.said = Some(now);
    }
}

impl Read for Source<'_> {
    fn read(&mut self, buf: &mut [u8]) -> io::Result<usize> {
        let result = match &mut self.origin {
            Origin::Standard(reader) => reader.read(buf),
            Origin::File(file) => file.read(buf),
        };
        self.error = result.err();
        if let Ok(count) = result {
            self.read = self.read.saturating_add(count as u64);
            if self.is_watched && self.read >= MEBIBYTE {
                self.say();
            }
        }
        result
    }
}

/// What is written.
#[derive(Drop)]
enum Destination<'a> {
    Standard(Printer<'a, HostRuntime>),
    File(File),
    Nothing,
}

/// A writer.
#[derive(Drop)]
pub(crate) struct Target<'a> {
    destination: Destination<'a>,
    error: Option<io::Error>,
}

impl<'a> Target<'a> {
    /// Writes standard output.
    pub(crate) fn standard(rt: &'a HostRuntime) -> Self {
        Target {
            destination: Destination::Standard(io::writer(rt)),
            error: None,
        }
    }

    /// Writes a file.
    pub(crate) fn file(file: File) -> Self {
        Target {
            destination: Destination::File(file),
            error: None,
        }
    }

    /// Takes all bytes, and writes none.
    pub(crate) fn nothing() -> Self {
        Target {
            destination: Destination::Nothing,
            error: None,
        }
    }

    /// The error of the last write, if it failed.
    pub(crate) fn error(&self) -> Option<io::Error> {
        self.error
    }

    /// Waits until a file is stored.
    pub(crate) fn sync(&self) -> io::Result<()> {
        match &self.destination {
            Destination::File(file) => file.sync_all(),
            Destination::Standard(_) | Destination::Nothing => Ok(()),
        }
    }
}

impl Write for Target<'_> {
    fn write(&mut self, buf: &[u8]) -> io::Result<usize> {
        let result = match &mut self.destination {
            Destination::Standard(writer) => writer.write(buf),
            Destination::File(file) => file.write(buf),
            Destination::Nothing => Ok(buf.len()),
        };
        self.error = result.err();
        result
    }

    fn flush(&mut self) -> io::Result<()> {
        Ok(())
    }
}
