//! Errors of coders: a coder's own, or an error of its backend.

ghost use Rattle.std.specs.Prelude.{◌≡◌, codes, Some};
ghost use Rattle.constriction_words.specs.declared.coder_error.CoderError.TheVariants.{Frontend, Backend};
ghost use Rattle.constriction_words.specs.CoderError.{MapsFrontend, MapsBackend, coder_error_text};

use std::error::Error;
use std::fmt;

/// An error of the coder itself, or of the backend that holds its words.
#[derive(Debug, Clone, PartialEq, Eq, Drop)]
pub enum CoderError<FrontendError, BackendError> {
    /// The symbol or the compressed data is at fault.
    Frontend(FrontendError),
    /// A read or a write of the backend failed.
    Backend(BackendError),
}

impl<FrontendError, BackendError> CoderError<FrontendError, BackendError> {
    /// Applies `f` to a frontend error, and passes a backend error through.
    pub fn map_frontend<NewFrontendError, F: Fn(FrontendError) -> NewFrontendError + Drop>(
        self,
        f: F,
    ) -> CoderError<NewFrontendError, BackendError>
        requires { (error : FrontendError) → self ≡ Frontend error → F.pre f error }
        ensures { MapsFrontend (F.post f) self result }
    {
        match self {
            CoderError::Frontend(err) => CoderError::Frontend(f(err)),
            CoderError::Backend(err) => CoderError::Backend(err),
        }
    }

    /// Applies `f` to a backend error, and passes a frontend error through.
    pub fn map_backend<NewBackendError, F: Fn(BackendError) -> NewBackendError + Drop>(
        self,
        f: F,
    ) -> CoderError<FrontendError, NewBackendError>
        requires { (error : BackendError) → self ≡ Backend error → F.pre f error }
        ensures { MapsBackend (F.post f) self result }
    {
        match self {
            CoderError::Frontend(err) => CoderError::Frontend(err),
            CoderError::Backend(err) => CoderError::Backend(f(err)),
        }
    }
}

impl<FrontendError, BackendError> From<BackendError> for CoderError<FrontendError, BackendError> {
    ghost from_gives = { λ read_error result. result ≡ Backend read_error };

    fn from(read_error: BackendError) -> Self {
        CoderError::Backend(read_error)
    }
}

impl<FrontendError: fmt::Display, BackendError: fmt::Display> fmt::Display
    for CoderError<FrontendError, BackendError> {
    ghost output = { coder_error_text FrontendError.output BackendError.output };

    fn fmt<W: fmt::Write>(&self, f: &mut fmt::Formatter<W>) -> fmt::Result {
        match self {
            CoderError::Frontend(err) => write!(f, "Invalid compressed data: {err}"),
            CoderError::Backend(err) => write!(f, "Error while reading compressed data: {err}"),
        }
    }
}

impl<FrontendError: Error, BackendError: Error> Error for CoderError<FrontendError, BackendError> {}

/// The frontend error of an encoder.
#[derive(Debug, Clone, PartialEq, Eq, Drop)]
pub enum DefaultEncoderFrontendError {
    /// The symbol has no entry in the model, so it cannot be encoded.
    ImpossibleSymbol,
}

impl fmt::Display for DefaultEncoderFrontendError {
    ghost output = { λ _. Some
        (codes "Tried to encode symbol that has zero probability under the used entropy model.") };

    fn fmt<W: fmt::Write>(&self, f: &mut fmt::Formatter<W>) -> fmt::Result {
        match self {
            DefaultEncoderFrontendError::ImpossibleSymbol => write!(
                f,
                "Tried to encode symbol that has zero probability under the used entropy model."
            ),
        }
    }
}

impl Error for DefaultEncoderFrontendError {}

/// A floating-point value that has to be a number is NaN.
#[derive(Debug, Clone, Copy, PartialEq, Eq)]
pub struct NanError;

impl fmt::Display for NanError {
    ghost output = { λ _. Some (codes "NaN encountered.") };

    fn fmt<W: fmt::Write>(&self, f: &mut fmt::Formatter<W>) -> fmt::Result {
        write!(f, "NaN encountered.")
    }
}

impl Error for NanError {}
