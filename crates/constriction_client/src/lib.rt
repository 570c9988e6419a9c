//! Functions over models and cursors: symbols as words and back, conversions, queries, and runs of
//! calls.
//!
//! [`write_quantiles`] and [`read_symbols`] turn symbols into words and words into symbols, over
//! any model and any sink or source. [`convert_chain`] takes a decoder's model through any
//! conversions. [`answer_queries`] asks a decoder and an encoder, which reply as a scan of their
//! rows does. [`run_cursor`] and [`run_reversed`] run calls on a cursor and on its reversal, which
//! answer alike. [`run`], of `constriction_text`, answers the lines of a whole text.
#![tactic(auto)]

mod chain;
mod cursor_calls;
mod cursor_runs;
mod decoder_form;
pub mod laws;
mod quantiles;
mod queries;

pub use crate::chain::{ChainStep, convert_chain};
pub use crate::cursor_calls::{CursorCall, CursorReply};
pub use crate::cursor_runs::{run_cursor, run_reversed};
pub use crate::decoder_form::{DecoderForm, SearchOrLookup};
pub use crate::quantiles::{QuantileFault, ReadFault, read_symbols, write_quantiles};
pub use crate::queries::{Query, Reply, answer_queries};
pub use constriction_text::{RunFault, run};
