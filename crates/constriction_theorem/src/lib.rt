//! The theorem: the models of one row list reply alike, however they were made, and a cursor and
//! its reversal answer alike.
//!
//! The first half is [`answer_from_weights`]: it accepts weights exactly if they tile and each fits
//! its word, makes the models of their rows, converts one by any steps, and asks each the same
//! queries. The replies are those that a scan of the rows gives.
//! [`answer_from_symbols_and_weights`] does this for models over any symbols, [`answer_by_model`]
//! and [`answer_by_symbol_table`] for any model that can be walked through, and [`answer_by_form`]
//! for a decoder that exists already. These functions may make lookup tables, so their `PRECISION`
//! is at most 63. [`answer_from_weights_by_search`] and [`answer_beside_encoder`] make none, and
//! take any `PRECISION`. The second half is [`run_cursor_and_reversal`].
//!
//! Replies alone do not show which model gave them. So each function that converts a form also
//! answers the form that the steps left, and its clauses say which kind and which rows that form
//! has.
#![tactic(auto)]

mod counted;
mod dividing;
mod forms;
mod made;
mod models;
mod searches;
mod symbols;
mod weights;

pub use crate::dividing::DividingWord;
pub use crate::forms::{FormAndReplies, answer_by_form};
pub use crate::models::{
    AnswersOfModel, answer_beside_encoder, answer_by_model, answer_by_symbol_table,
};
pub use crate::searches::{AnswersBySearch, answer_from_weights_by_search};
pub use crate::symbols::answer_from_symbols_and_weights;
pub use crate::weights::{AnswersOfWeights, RepliesByEncoder, answer_from_weights};
pub use constriction_client::laws::run_cursor_and_reversal;
