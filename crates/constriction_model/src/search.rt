//! The search for the row of a quantile, by halving.

ghost use Rattle.std.specs.Prelude.{◌≡◌, ◌+◌, ◌-◌, ◌*◌, ◌<◌, ◌≤◌, length};
ghost use Rattle.constriction_model.specs.private.Searching.{MaySearch, Narrows, IsHalved};
ghost use Rattle.constriction_model.specs.Probe.{digits, IsSearchable, IsLastAtMost};

use crate::probe::Probe;

/// Halves the rows from `first` on. There are at least two.
#[inline(always)]
fn half_of_more<R: Probe>(rows: &mut R, q: R::Word, first: usize, size: usize) -> (usize, usize)
    requires searching { MaySearch R.Probe rows.old q first size }
    requires more { 1 < size }
    ensures narrows { Narrows R.Probe rows.old q size rows.new result.0 result.1 }
    ensures fewer { result.1 < size }
    ensures half { size ≤ 2 * result.1 }
{
    let half = size / 2;
    if rows.at_most(first + half, q) {
        (first + half, size - half)
    } else {
        (first, size - half)
    }
}

/// Halves the rows from `first` on, if there are at least two.
#[inline]
fn halve<R: Probe>(rows: &mut R, q: R::Word, first: usize, size: usize) -> (usize, usize)
    requires searching { MaySearch R.Probe rows.old q first size }
    ensures narrows { Narrows R.Probe rows.old q size rows.new result.0 result.1 }
    ensures no_more { result.1 ≤ size }
    ensures fewer { 1 < size → result.1 < size }
{
    if size <= 1 {
        return (first, size);
    }
    half_of_more(rows, q, first, size)
}

/// Halves the rows from `first` on four times.
#[inline(always)]
fn halve_four_times<R: Probe>(rows: &mut R, q: R::Word, first: usize, size: usize) -> (usize, usize)
    requires searching { MaySearch R.Probe rows.old q first size }
    ensures narrows { Narrows R.Probe rows.old q size rows.new result.0 result.1 }
    ensures fewer { 1 < size → result.1 < size }
{
    let (half_first, half) = halve(rows, q, first, size);
    let (quarter_first, quarter) = halve(rows, q, half_first, half);
    let (eighth_first, eighth) = halve(rows, q, quarter_first, quarter);
    halve(rows, q, eighth_first, eighth)
}

/// Halves more than eight rows from `first` on four times. None of the four questions needs a test
/// of how many rows are left.
#[inline(always)]
fn halve_many_four_times<R: Probe>(
    rows: &mut R,
    q: R::Word,
    first: usize,
    size: usize,
) -> (usize, usize)
    requires searching { MaySearch R.Probe rows.old q first size }
    requires many { 8 < size }
    ensures narrows { Narrows R.Probe rows.old q size rows.new result.0 result.1 }
    ensures fewer { result.1 < size }
    ensures sixteenth { size ≤ 16 * result.1 }
{
    let (half_first, half) = half_of_more(rows, q, first, size);
    let (quarter_first, quarter) = half_of_more(rows, q, half_first, half);
    let (eighth_first, eighth) = half_of_more(rows, q, quarter_first, quarter);
    half_of_more(rows, q, eighth_first, eighth)
}

/// Halves the rows from `first` on four times, out of line. A loop with the questions in it is
/// compiled to jumps that depend on the answers, and not to moves, which are several times as fast
/// on random quantiles.
#[inline(never)]
fn sixteenth<R: Probe>(rows: &mut R, q: R::Word, first: usize, size: usize) -> (usize, usize)
    requires searching { MaySearch R.Probe rows.old q first size }
    ensures narrows { Narrows R.Probe rows.old q size rows.new result.0 result.1 }
    ensures fewer { 1 < size → result.1 < size }
{
    if size > 8 {
        return halve_many_four_times(rows, q, first, size);
    }
    halve_four_times(rows, q, first, size)
}

/// The greatest index whose cumulative is at most `q`, in a list of at most two. It is the answer
/// to one question, as a number: a choice between two rows is compiled to a jump, which the
/// processor has to predict.
#[inline(always)]
#[tactic(auto, using(crate::proofs::Digits::digits_two))]
fn row_of_two<R: Probe>(rows: &mut R, q: R::Word) -> usize
    requires searching { MaySearch R.Probe rows.old q 0 (length (R.cumulatives rows.old)) }
    requires two { length (R.cumulatives rows.old) ≤ 2 }
    ensures { Narrows R.Probe rows.old q (length (R.cumulatives rows.old)) rows.new result 1 }
{
    if rows.len() < 2 {
        return 0;
    }
    usize::from(rows.at_most(1, q))
}

/// The first of the `left` rows that one question leaves of the `size` rows from `first` on. Either
/// answer leaves that many.
#[inline(always)]
#[tactic(auto, using(crate::proofs::Halving::asked_yes))]
fn first_left<R: Probe>(rows: &mut R, q: R::Word, first: usize, size: usize, left: usize) -> usize
    requires searching { MaySearch R.Probe rows.old q first size }
    requires halved { IsHalved size left }
    ensures { Narrows R.Probe rows.old q size rows.new result left }
{
    let skipped = size - left;
    if rows.at_most(first + skipped, q) {
        first + skipped
    } else {
        first
    }
}

/// The row among the four from `first` on.
#[inline(always)]
fn row_of_four<R: Probe>(rows: &mut R, q: R::Word, first: usize) -> usize
    requires { MaySearch R.Probe rows.old q first 4 }
    ensures { Narrows R.Probe rows.old q 4 rows.new result 1 }
{
    let half = first_left(rows, q, first, 4, 2);
    first_left(rows, q, half, 2, 1)
}

/// The row among the eight from `first` on.
#[inline(always)]
fn row_of_eight<R: Probe>(rows: &mut R, q: R::Word, first: usize) -> usize
    requires { MaySearch R.Probe rows.old q first 8 }
    ensures { Narrows R.Probe rows.old q 8 rows.new result 1 }
{
    let half = first_left(rows, q, first, 8, 4);
    row_of_four(rows, q, half)
}

/// The row among the sixteen from `first` on.
#[inline(always)]
fn row_of_sixteen<R: Probe>(rows: &mut R, q: R::Word, first: usize) -> usize
    requires { MaySearch R.Probe rows.old q first 16 }
    ensures { Narrows R.Probe rows.old q 16 rows.new result 1 }
{
    let half = first_left(rows, q, first, 16, 8);
    row_of_eight(rows, q, half)
}

/// The greatest index whose cumulative is at most `q`, in a list of at most 32.
///
/// The first question leaves a power of two, so each later one asks about the row at a fixed
/// distance from the first row left. The number of questions is chosen once, before the first one,
/// and nothing is tested between them.
#[inline(always)]
fn row_of_thirty_two<R: Probe>(rows: &mut R, q: R::Word) -> usize
    requires searching { MaySearch R.Probe rows.old q 0 (length (R.cumulatives rows.old)) }
    requires few { length (R.cumulatives rows.old) ≤ 32 }
    ensures { Narrows R.Probe rows.old q (length (R.cumulatives rows.old)) rows.new result 1 }
{
    let size = rows.len();
    if size > 16 {
        let first = first_left(rows, q, 0, size, 16);
        return row_of_sixteen(rows, q, first);
    }
    if size > 8 {
        let first = first_left(rows, q, 0, size, 8);
        return row_of_eight(rows, q, first);
    }
    if size > 4 {
        let first = first_left(rows, q, 0, size, 4);
        return row_of_four(rows, q, first);
    }
    if size > 2 {
        let first = first_left(rows, q, 0, size, 2);
        return first_left(rows, q, first, 2, 1);
    }
    row_of_two(rows, q)
}

/// The greatest index whose cumulative is at most `q`.
///
/// The search halves the rows until one is left. So it asks as many questions as one less than the
/// number of rows has binary digits, for every `q`.
#[inline(always)]
pub fn row_of_quantile<R: Probe>(rows: &mut R, q: R::Word) -> usize
    requires searchable { IsSearchable (R.cumulatives rows.old) (R.number q) }
    requires room { R.questions rows.old ≤ usize.MAX - 64 }
    ensures found { IsLastAtMost (R.cumulatives rows.old) (R.number q) result }
    ensures same { R.cumulatives rows.new ≡ R.cumulatives rows.old }
    ensures counted { R.questions rows.new
        ≡ R.questions rows.old + digits (length (R.cumulatives rows.old) - 1) }
{
    let all = rows.len();
    if all <= 2 {
        return row_of_two(rows, q);
    }
    let (near, few) = halve_four_times(rows, q, 0, all);
    let (mut first, mut size) = halve_four_times(rows, q, near, few);
    'rows: while size > 1 {
        let (next, left) = sixteenth(rows, q, first, size);
        first = next;
        size = left;
    }
    first
}

/// The index that [`row_of_quantile`] answers, by as many questions, for a probe that is not asked
/// afterwards.
///
/// The out-of-line part of the search takes the probe in memory, so a caller's loop would write it
/// there for each quantile. So a probe of at most `FEW` rows, 32 or fewer, is searched at fixed
/// distances, and stays in registers. In a loop, the questions about more than two rows are then
/// compiled to jumps; outside a loop `FEW` may be 32.
#[inline(always)]
pub fn row_in_probe<R: Probe + Drop, const FEW: usize>(rows: R, q: R::Word) -> usize
    requires searchable { IsSearchable (R.cumulatives rows) (R.number q) }
    requires room { R.questions rows ≤ usize.MAX - 64 }
    requires few { FEW ≤ 32 }
    ensures { IsLastAtMost (R.cumulatives rows) (R.number q) result }
{
    let mut few = rows;
    if few.len() <= FEW {
        return row_of_thirty_two(&mut few, q);
    }
    let mut many = few;
    row_of_quantile(&mut many, q)
}
