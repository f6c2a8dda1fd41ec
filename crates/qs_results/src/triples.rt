//! Graphs as N-Triples (RDF 1.1 N-Triples, 2).

ghost use Rattle.std.specs.Prelude.{◌≡◌, ◌++◌, IfOk, true, string_bytes};
ghost use Rattle.qs_results.specs.Triples.{ntriples_of};
ghost use Rattle.qs_results.specs.inner.Triples.{is_graph};

use qs_algebra_solutions::Answer;
use qs_nquads::{text, text_after};
use std::alloc::{AllocError, Global};

/// What was written before, and the graph as N-Triples: a line a triple, ascending by their bytes, each once. It is asked of a graph alone. The
/// one error is running out of memory.
pub fn ntriples_after(
    alloc: Global,
    before: Vec<u8>,
    answer: &Answer,
) -> Result<Vec<u8>, AllocError>
    requires { is_graph answer.now ≡ true }
    ensures { IfOk result (λ out. out.items ≡ before.items ++ ntriples_of answer.now) }
{
    match answer {
        Answer::Graph(quads) => text_after(alloc, before, quads.as_slice()),
        _ => unreachable!(),
    }
}

/// The graph as N-Triples: a line a triple, ascending by their bytes, each once. It is asked of a graph alone.
pub fn ntriples(alloc: Global, answer: &Answer) -> Result<String, AllocError>
    requires { is_graph answer.now ≡ true }
    ensures { IfOk result (λ s. string_bytes s ≡ ntriples_of answer.now) }
{
    match answer {
        Answer::Graph(quads) => text(alloc, quads.as_slice()),
        _ => unreachable!(),
    }
}
