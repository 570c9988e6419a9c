//! Taking the value of a result that cannot be an error.

ghost use Rattle.std.specs.Prelude.{◌≡◌, IfOk, Ok};

use crate::coder_error::CoderError;
use std::convert::Infallible;

/// A result that is always `Ok`, since its error type has no value.
pub trait UnwrapInfallible<T> {
    // The result has this value.
    ghost unwraps: { Self → T → Type 0 };

    /// The value of the result.
    fn unwrap_infallible(self) -> T
        ensures { unwraps self result };
}

impl<T> UnwrapInfallible<T> for Result<T, Infallible> {
    ghost unwraps = { λ r value. r ≡ Ok value };

    #[inline]
    fn unwrap_infallible(self) -> T {
        match self {
            Ok(x) => x,
            Err(error) => match error {},
        }
    }
}

impl<T, FrontendError, BackendError> UnwrapInfallible<T>
    for Result<T, CoderError<FrontendError, BackendError>>
where
    Result<T, FrontendError>: UnwrapInfallible<T>,
    Result<T, BackendError>: UnwrapInfallible<T>,
{
    ghost unwraps = { λ r value. IfOk r (λ x. value ≡ x) };

    #[inline]
    fn unwrap_infallible(self) -> T {
        match self {
            Ok(x) => x,
            Err(CoderError::Frontend(infallible)) => {
                Err::<T, FrontendError>(infallible).unwrap_infallible()
            }
            Err(CoderError::Backend(infallible)) => {
                Err::<T, BackendError>(infallible).unwrap_infallible()
            }
        }
    }
}
