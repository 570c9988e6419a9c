//! Laws that follow from the contracts of models. Each is the contract of a function, and holds for
//! each type that implements the traits, a caller's own too.

ghost use Rattle.std.specs.Prelude.{◌≡◌, ◌≢◌, ◌↔◌, ◌^◌, ◌<◌, ◌≤◌, ℕ, List, Some, None, length, find, nat_eq, slice_index_or, IsSome};
ghost use Rattle.std.specs.List.{IsDistinct};
ghost use Rattle.constriction_model.specs.Entries.{SameEntries};
ghost use Rattle.constriction_model.specs.Laws.{HasOneRow, IsOneToOne};
ghost use Rattle.constriction_model.specs.Rows.{Row, RowsTile, IsRowOf, contiguous_rows, entry_of, symbols_of, uniform_rows};
ghost use Rattle.constriction_model.specs.Scanning.{holds};

use crate::traits::{DecoderModel, EncoderModel, EntropyModel};

/// A uniform model of `n` symbols has `n` rows, so its fresh symbol table has `n` items.
pub fn uniform_row_count()
    ensures { (precision n : ℕ) → 0 < n → length (uniform_rows precision n) ≡ n }
{}

/// Each quantile below `2^PRECISION` has one row in a decoder model. What
/// [`DecoderModel::quantile_function`] answers stands for this row.
pub fn quantiles_have_one_row<M: DecoderModel<PRECISION>, const PRECISION: usize>()
    ensures { (m : M) (q : ℕ) → q < 2 ^ PRECISION → HasOneRow PRECISION (M.rows m) q }
{}

/// If no two symbols are equal, the quantiles below `2^PRECISION` correspond one to one to the
/// pairs of a symbol that has an entry and an offset below its weight. A coder that decodes a
/// quantile to a symbol and an offset gets the quantile back when it encodes these, and the other
/// way round.
pub fn pairs_are_quantiles<D, E, const PRECISION: usize>()
where
    D: DecoderModel<PRECISION>,
    E: EncoderModel<PRECISION, Symbol = D::Symbol>,
    ensures { (d : D) (e : E) → IsDistinct E.symbol_eq (symbols_of (D.rows d))
        → SameEntries E.symbol_eq (E.rows e) (D.rows d)
        → IsOneToOne E.symbol_eq (entry_of E.symbol_eq (E.rows e)) PRECISION (D.rows d) }
{}

/// No two symbols of a contiguous model, searching or looking up, are equal, nor are two of a
/// uniform model.
pub fn contiguous_symbols_differ()
    ensures { (weights : List ℕ) → IsDistinct nat_eq (symbols_of (contiguous_rows weights)) }
{}

/// The symbols of a contiguous model, searching or looking up, and of a uniform model are the
/// numbers below its `support_size`: each of these has an entry, no other number has one, and the
/// symbol of each row is its index. So a coder never answers `ImpossibleSymbol` for one of these
/// numbers, and decodes no other number.
pub fn contiguous_symbols_have_entries()
    ensures known { (weights : List ℕ) (s : ℕ) → s < length (contiguous_rows weights)
        → entry_of nat_eq (contiguous_rows weights) s ≢ None }
    ensures unknown { (weights : List ℕ) (s : ℕ) → length (contiguous_rows weights) ≤ s
        → entry_of nat_eq (contiguous_rows weights) s ≡ None }
    ensures row { (weights : List ℕ) (k : ℕ) (d : Row ℕ) → k < length (contiguous_rows weights)
        → (slice_index_or (contiguous_rows weights) k d).symbol ≡ k }
{}

/// Two decoder models of the same symbols and the same `PRECISION` have the same row for each
/// quantile, and so answer alike, if and only if they have the same list of rows. So one model can
/// replace another if and only if their symbol tables are the same. The models may be over
/// different words.
pub fn equal_answers<M, N, const PRECISION: usize>()
where
    M: DecoderModel<PRECISION>,
    N: DecoderModel<PRECISION> + EntropyModel<PRECISION, Symbol = M::Symbol>,
    ensures { (m : M) (n : N) → ((q : ℕ) (r : Row M.Symbol) → q < 2 ^ PRECISION
        → IsRowOf (M.rows m) q r ↔ IsRowOf (N.rows n) q r) ↔ (M.rows m ≡ N.rows n) }
{}

/// The row that a scan finds for a quantile is the row that models answer.
pub fn the_row_found_is_the_row_of_the_quantile<Symbol>()
    ensures { (bits precision : ℕ) (rows : List (Row Symbol)) (q : ℕ) (row : Row Symbol)
        → RowsTile bits precision rows → (find (holds q) rows ≡ Some row) ↔ IsRowOf rows q row }
{}

/// A scan finds a row for each quantile in range.
pub fn each_quantile_in_range_has_a_row<Symbol>()
    ensures { (bits precision : ℕ) (rows : List (Row Symbol)) (q : ℕ) → RowsTile bits precision rows
        → q < 2 ^ precision → IsSome (find (holds q) rows) }
{}
