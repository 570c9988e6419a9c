//! How many questions the searches for quantiles ask.

ghost use Rattle.std.specs.Prelude.{◌≡◌, ◌≤◌, All, length, IfOk};
ghost use Rattle.constriction_categorical.specs.ModelRows.{contiguous_model_rows};
ghost use Rattle.constriction_model.specs.Precision.{IsPrecision};
ghost use Rattle.constriction_model.specs.Probe.{digits};
ghost use Rattle.constriction_theorem.specs.Answers.{questions_asked, questions_for};

use crate::made::Contiguous;
use constriction_client::Query;
use constriction_model::{Probe, is_quantile, row_of_quantile};
use constriction_words::WholeNumber;
use std::alloc::{AllocError, Global};

/// How many questions a search asks for a query: none for a symbol, and none for a word that is no
/// quantile.
fn questions_for_query<Probability: WholeNumber, const PRECISION: usize>(
    model: &Contiguous<Probability, PRECISION>,
    query: &Query<usize, Probability>,
) -> usize
    requires { IsPrecision Probability.BITS PRECISION }
    ensures asked { result ≡ questions_for PRECISION Probability.whole
        (length (contiguous_model_rows model.now)) query.now }
    ensures few { result ≤ digits (length (contiguous_model_rows model.now)) }
{
    match query {
        Query::OfQuantile(word) => {
            if !is_quantile::<Probability, PRECISION>(*word) {
                return 0;
            }
            let (_, mut rows) = model.quantile_probe(*word);
            row_of_quantile(&mut rows, *word);
            rows.asked()
        }
        Query::OfSymbol(_) => 0,
    }
}

/// The same for each of these queries.
pub(crate) fn questions_of<Probability: WholeNumber, const PRECISION: usize>(
    alloc: Global,
    model: &Contiguous<Probability, PRECISION>,
    queries: &[Query<usize, Probability>],
) -> Result<Vec<usize>, AllocError>
    requires { IsPrecision Probability.BITS PRECISION }
    ensures questions { IfOk result (λ questions. questions.items ≡ questions_asked PRECISION
        Probability.whole queries.now (length (contiguous_model_rows model.now))) }
    ensures few { IfOk result (λ questions.
        All (λ n. n ≤ digits (length (contiguous_model_rows model.now))) questions.items) }
{
    let mut questions = Vec::with_capacity(alloc, queries.len())?;
    for query in queries {
        questions.push(questions_for_query(model, query))?;
    }
    Ok(questions)
}
