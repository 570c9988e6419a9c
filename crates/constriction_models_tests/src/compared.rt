//! How many questions a search asks. The contracts of `quantile_probe` and `row_of_quantile` say
//! it.

ghost use Rattle.std.specs.Prelude.{◌≡◌, ◌+◌, ◌<◌, ◌≤◌, [], ◌∷◌};
ghost use Rattle.constriction.specs.Probe.{digits, IsRowIndexOf};
ghost use Rattle.constriction.specs.Rows.{contiguous_rows};

use crate::checks::same;
use constriction::stream::model::{
    EntropyModel, Probe, SlottedContiguousLookupDecoderModel, row_of_quantile,
};
use constriction_test_support::contiguous::Weighted;
use constriction_test_support::given::of_four;

/// A lookup model with four slots of 16 quantiles each.
type Tabled = SlottedContiguousLookupDecoderModel<u8, Vec<u8>, Vec<u8>, 6, 2>;

/// A search of all four rows: the index of the first one, how many rows after it the quantile's row
/// stands, and how many questions were asked.
fn by_a_search(model: &Weighted<6>, quantile: u8) -> (usize, usize, usize)
    requires four { ⟦<Weighted<6> as EntropyModel<6>>⟧.rows model.now
        ≡ contiguous_rows (3 ∷ 18 ∷ 1 ∷ 42 ∷ []) }
    requires in_range { quantile < 64 }
    ensures row { IsRowIndexOf (contiguous_rows (3 ∷ 18 ∷ 1 ∷ 42 ∷ [])) quantile
        (result.0 + result.1) }
    ensures few { result.2 ≤ digits 3 }
{
    let (first, mut rows) = model.quantile_probe(quantile);
    let index = row_of_quantile(&mut rows, quantile);
    (first, index, rows.asked())
}

/// The same for a search of the rows that meet the quantile's slot.
fn by_a_lookup_table(model: &Tabled, quantile: u8) -> (usize, usize, usize)
    requires four { ⟦<Tabled as EntropyModel<6>>⟧.rows model.now
        ≡ contiguous_rows (3 ∷ 18 ∷ 1 ∷ 42 ∷ []) }
    requires in_range { quantile < 64 }
    ensures row { IsRowIndexOf (contiguous_rows (3 ∷ 18 ∷ 1 ∷ 42 ∷ [])) quantile
        (result.0 + result.1) }
    ensures few { result.2 ≤ digits 3 }
{
    let (first, mut rows) = model.quantile_probe(quantile);
    let index = row_of_quantile(&mut rows, quantile);
    (first, index, rows.asked())
}

/// A search of four rows asks two questions. Two rows meet the slot of the quantile 5, three the
/// slot of 20, and one the slot of 40.
#[test]
fn a_search_asks_of_all_rows_and_beside_a_lookup_table_of_those_of_a_slot(rt: HostRuntime) {
    let model = of_four(rt.alloc(), [3, 18, 1, 42]).expect(&rt, "accepted");
    same(&rt, by_a_search(&model, 20), (0, 1, 2));
    let made = model.to_slotted_lookup_decoder_model::<2>(rt.alloc());
    let tabled = made.expect(&rt, "a lookup model");
    same(&rt, by_a_lookup_table(&tabled, 5), (0, 1, 1));
    same(&rt, by_a_lookup_table(&tabled, 20), (1, 0, 2));
    same(&rt, by_a_lookup_table(&tabled, 40), (3, 0, 0));
}
