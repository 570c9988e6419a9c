//! Laws that follow from the contracts of models. Each is the contract of a function, and holds for
//! each type that implements the traits, a caller's own too.

pub use constriction_conversions::laws::{
    answers_are_in_table, non_contiguous_lookup_symbols_differ, non_contiguous_symbols_differ,
    slotted_non_contiguous_lookup_symbols_differ, symbols_and_weights_rebuild,
    table_gives_all_rows, table_length, table_walks_rows, table_walks_rows_from_both_ends,
};
pub use constriction_model::laws::{
    contiguous_symbols_differ, contiguous_symbols_have_entries, each_quantile_in_range_has_a_row,
    equal_answers, pairs_are_quantiles, quantiles_have_one_row,
    the_row_found_is_the_row_of_the_quantile, uniform_row_count,
};
