//! What follows from the definitions that the contracts cite, each law the contract of a function.

ghost use Rattle.std.specs.Prelude.{reverse};
ghost use Rattle.constriction_client.specs.ThereAndBack.{ReadsBack};

mod forms;
mod round_trips;
mod runs;

pub use self::forms::form_symbols_differ;
pub use self::round_trips::{
    CursorError, DecoderAndEncoder, decoder_and_encoder, there_and_back,
    there_and_back_in_a_cursor, there_and_back_of_two,
};
pub use self::runs::{run_cursor_and_reversal, runs_are_alike};
pub use constriction_model::laws::{
    each_quantile_in_range_has_a_row, the_row_found_is_the_row_of_the_quantile,
};

/// The words of items are read back as these items, in the order of a queue.
pub fn reads_back<Symbol, Word>()
    ensures { ReadsBack Symbol Word (λ words. words) (λ items. items) }
{}

/// The words of items are read back as these items, the last one first, in the order of a stack.
pub fn reads_back_reversed<Symbol, Word>()
    ensures { ReadsBack Symbol Word reverse reverse }
{}
