//! Answers of texts.

ghost use Rattle.qs_terms.specs.Outcome.{OneOrOutOfMemory};
ghost use Rattle.qs_store.specs.Visible.{visible};
ghost use Rattle.qs_query_forms.specs.Sequence.{dataset_of};
ghost use Rattle.qs_query.specs.Outcome.{IsOutcomeOfText};

use qs_algebra_solutions::Answer;
use qs_query_forms::answer_query;
use qs_store::View;
use qs_syntax::{drop_query, parse_query};
use qs_terms::QFault;
use std::alloc::Global;

/// An answer of the text over the dataset that queries see of the view, with its next blank node's number (SPARQL 1.1 Query, 16 and 18).
///
/// # Errors
/// The fault of the text, as of `parse_query`. Of a text without fault: `QFault::TooManyRows` where the solutions of a SELECT or a CONSTRUCT,
/// after OFFSET and LIMIT, are more than `max_rows`; `QFault::Full` where there are no numbers for the fresh blank nodes of a CONSTRUCT.
/// `QFault::Memory` where memory runs out, at any time.
pub fn answer<V: View>(alloc: Global, text: &str, view: &V, max_rows: u64) -> Result<Answer, QFault>
    ensures { OneOrOutOfMemory
        (IsOutcomeOfText text.now
        (dataset_of (visible (V.default_seen view.now) (V.content view.now).quads)
        (V.content view.now).next) max_rows) result }
{
    let query = parse_query(alloc, text)?;
    let answer = answer_query(alloc, &query, view, None, max_rows);
    drop_query(query);
    answer
}
