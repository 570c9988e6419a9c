//! Stored weights: the number of weights and then the weights, as words; a table of weights as a
//! few bytes.
#![tactic(auto)]

mod entries;
mod errors;
mod models;
mod places;
mod reading;
mod tables;
mod weights;
mod writing;

pub use errors::{ReadingError, StoringError, TableReadingError, TableWritingError};
pub use models::{StoredModel, model_comes_back, read_model, write_model};
pub use tables::{read_table, table_comes_back, tables_have_one_text, write_table};
pub use weights::{read_weights, write_weights};
