//! Sinks over callbacks.

mod fallible;
mod infallible;

pub use self::fallible::FallibleCallbackWriteWords;
pub use self::infallible::InfallibleCallbackWriteWords;
