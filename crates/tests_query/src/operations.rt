//! Updates form by form (SPARQL 1.1 Update, 3), with their names resolved.

use crate::outcome::Outcome;
use qs_syntax::{drop_update, parse_update};
use qs_syntax_ast::term::VarOrIri;
use qs_syntax_ast::update::{GraphOrDefault, GraphTarget, Modify, Operation, QuadBlock, Transfer};
use qs_syntax_tree::update::OnMissing;
use std::alloc::Global;

/// An update of each form, numbered from 0.
const TEXT: &str =
    "PREFIX : <http://e/> INSERT DATA { :a :p 1 GRAPH :g { :b a \"\\u00e9\"@EN , [] } . :c :p -3 }
; DELETE DATA { GRAPH :g { } }
; DELETE WHERE { GRAPH ?g { ?a :p ?b } }
; WITH :w DELETE { ?a ?p ?b } INSERT { } WHERE { ?a ?p ?b }
; INSERT { ?a :q _:n } WHERE { ?a :p ?b OPTIONAL { } }
; CLEAR SILENT GRAPH :g
; DROP DEFAULT
; PREFIX : <http://f/> CLEAR NAMED
; DROP SILENT ALL
; CREATE GRAPH :g
; ADD <u:a> TO DEFAULT
; MOVE SILENT DEFAULT TO GRAPH :b
; COPY GRAPH :c TO :d";

/// The name of the block's graph, or nothing where it is the default graph.
fn text_of_graph(block: &QuadBlock) -> &str {
    match &block.graph {
        None => "",
        Some(VarOrIri::Variable(variable)) => variable.text(),
        Some(VarOrIri::Iri(iri)) => iri.text(),
    }
}

/// Whether these are the blocks: each with the name of its graph and the number of its triples.
fn are_blocks(blocks: &[QuadBlock], wanted: &[(&str, usize)]) -> bool {
    for (block, (graph, count)) in blocks.iter().zip(wanted) {
        if text_of_graph(block) != *graph || block.triples.len() != *count {
            return false;
        }
    }
    blocks.len() == wanted.len()
}

/// Whether operation 3 is this one.
fn is_with(modify: &Modify) -> bool {
    matches!(&modify.with, Some(iri) if iri.text() == "http://e/w")
        && are_blocks(modify.delete.as_slice(), &[("", 1)])
        && modify.insert.is_empty()
        && modify.pattern.patterns.len() == 1
}

/// Whether operation 4 is this one.
fn is_without(modify: &Modify) -> bool {
    modify.with.is_none()
        && modify.delete.is_empty()
        && are_blocks(modify.insert.as_slice(), &[("", 1)])
        && modify.pattern.patterns.len() == 2
}

/// Whether the operation is the one of this number, where that is one of triples.
fn is_of_triples(number: usize, operation: &Operation) -> bool {
    match (number, operation) {
        (0, Operation::InsertData(blocks)) => are_blocks(
            blocks.as_slice(),
            &[("", 1), ("http://e/g", 2), ("", 1)],
        ),
        (1, Operation::DeleteData(blocks)) => are_blocks(blocks.as_slice(), &[("http://e/g", 0)]),
        (2, Operation::DeleteWhere(delete)) => are_blocks(delete.quads.as_slice(), &[("g", 1)]),
        (3, Operation::Modify(modify)) => is_with(modify),
        (4, Operation::Modify(modify)) => is_without(modify),
        _ => false,
    }
}

/// Whether it is the graph of this name, or the default graph where there is none.
fn is_end(end: &GraphOrDefault, name: &str) -> bool {
    match end {
        GraphOrDefault::Default => name.is_empty(),
        GraphOrDefault::Graph(iri) => iri.text() == name,
    }
}

fn is_transfer(transfer: &Transfer, silent: bool, from: &str, to: &str) -> bool {
    matches!(transfer.on_missing, OnMissing::Silent) == silent
        && is_end(&transfer.from, from)
        && is_end(&transfer.to, to)
}

/// Whether the operation is the one of this number, where that is one of whole graphs.
fn is_of_graphs(number: usize, operation: &Operation) -> bool {
    match (number, operation) {
        (5, Operation::Clear(OnMissing::Silent, GraphTarget::Graph(iri))) => {
            iri.text() == "http://e/g"
        }
        (6, Operation::Drop(OnMissing::Fault, GraphTarget::Default)) => true,
        (7, Operation::Clear(OnMissing::Fault, GraphTarget::Named)) => true,
        (8, Operation::Drop(OnMissing::Silent, GraphTarget::All)) => true,
        (9, Operation::Create(OnMissing::Fault, iri)) => iri.text() == "http://f/g",
        (10, Operation::Add(transfer)) => is_transfer(transfer, false, "u:a", ""),
        (11, Operation::Move(transfer)) => is_transfer(transfer, true, "", "http://f/b"),
        (12, Operation::Copy(transfer)) => {
            is_transfer(transfer, false, "http://f/c", "http://f/d")
        }
        _ => false,
    }
}

fn are_meant(operations: &[Operation]) -> bool {
    for (number, operation) in operations.iter().enumerate() {
        if !is_of_triples(number, operation) && !is_of_graphs(number, operation) {
            return false;
        }
    }
    operations.len() == 13
}

/// Whether the text is read.
pub fn outcome(alloc: Global) -> Outcome {
    match parse_update(alloc, TEXT) {
        Ok(update) => {
            let are_meant = are_meant(update.operations.as_slice());
            drop_update(update);
            Outcome::of_answer(are_meant)
        }
        Err(fault) => Outcome::of_fault(&fault),
    }
}
