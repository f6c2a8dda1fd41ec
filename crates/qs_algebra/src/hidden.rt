//! The hidden variables of a basic graph pattern: its blank nodes (SPARQL 1.1 Query, 4.1.4).

ghost use Rattle.std.specs.Prelude.{◌≡◌, ◌+◌, [], length, IfOk, OnOk, Some, None};
ghost use Rattle.std.specs.List.{fold};
ghost use Rattle.std.specs.Option.{IfSome};
ghost use Rattle.qs_syntax_scope.specs.Names.{contains};
ghost use Rattle.qs_algebra.specs.Numbers as spec;
ghost use Rattle.qs_algebra.specs.inner.Numbers as inner;

use qs_base::Shared;
use qs_syntax_ast::pattern::Triple;
use qs_syntax_ast::term::{BlankNode, TermPattern};
use qs_syntax_scope::NameList;
use qs_terms::Text;
use std::alloc::{AllocError, Global};

/// The least number of the blank nodes without a label, and the greatest.
#[derive(Clone, Copy)]
pub struct Span {
    pub least: usize,
    pub greatest: usize,
}

/// The labels of the blank nodes, each once, and the numbers of those without one.
#[derive(Drop)]
pub struct Hidden<'a> {
    pub labels: NameList<'a>,
    pub span: Option<Span>,
}

fn with_number(span: Option<Span>, number: usize) -> Span
    ensures { Some result ≡ spec.add_number span number }
{
    match span {
        None => Span {
            least: number,
            greatest: number,
        },
        Some(span) => Span {
            least: span.least.min(number),
            greatest: span.greatest.max(number),
        },
    }
}

fn least(span: Option<Span>) -> usize
    ensures { result ≡ inner.least_of span }
{
    match span {
        None => 0,
        Some(span) => span.least,
    }
}

// None where it passes the greatest number
fn span_width(span: Option<Span>) -> Option<usize>
    ensures { IfSome result (λ n. n ≡ inner.width_of span) }
{
    match span {
        None => Some(0),
        Some(span) => span.greatest.saturating_sub(span.least).checked_add(1),
    }
}

fn sum(a: usize, b: usize) -> Result<usize, AllocError>
    ensures { IfOk result (λ n. n ≡ a + b) }
{
    a.checked_add(b).ok_or(AllocError)
}

impl<'a> Hidden<'a> {
    pub fn new(alloc: Global) -> Hidden<'a>
        ensures { result ≡ record { labels = []; span = None } }
    {
        Hidden {
            labels: NameList::new(alloc),
            span: None,
        }
    }

    fn add_label(&mut self, label: &'a Shared<Text>) -> Result<(), AllocError>
        ensures labels { OnOk result (self.new.labels ≡ spec.add_label self.old.labels label.now) }
        ensures span { OnOk result (self.new.span ≡ self.old.span) }
    {
        if self.labels.contains(label.get().as_str()) {
            return Ok(());
        }
        self.labels.push(label)
    }

    fn add_blank(&mut self, blank: &'a BlankNode) -> Result<(), AllocError>
        ensures { OnOk result (self.new ≡ spec.add_blank self.old blank.now) }
    {
        match blank {
            BlankNode::Label(label) => self.add_label(label),
            BlankNode::Anonymous(number) => {
                self.span = Some(with_number(self.span, *number));
                Ok(())
            }
        }
    }

    fn add_term(&mut self, term: &'a TermPattern) -> Result<(), AllocError>
        ensures { OnOk result (self.new ≡ spec.add_term self.old term.now) }
    {
        match term {
            TermPattern::Blank(blank) => self.add_blank(blank),
            _ => Ok(()),
        }
    }

    /// The blank nodes of a triple more.
    pub fn add_triple(&mut self, triple: &'a Triple) -> Result<(), AllocError>
        ensures { OnOk result (self.new ≡ spec.add_triple self.old triple.now) }
    {
        self.add_term(&triple.subject)?;
        self.add_term(&triple.object)
    }

    /// How many numbers the hidden variables take. Where that passes the greatest number, no memory would hold them.
    pub fn width(&self) -> Result<usize, AllocError>
        ensures { IfOk result (λ n. n ≡ spec.width self.now) }
    {
        match span_width(self.span) {
            None => Err(AllocError),
            Some(span) => sum(self.labels.len(), span),
        }
    }

    /// The number of a blank node's variable, after those of the named ones.
    pub fn number<'b>(
        &self,
        names: &NameList<'b>,
        blank: &'a BlankNode,
    ) -> Result<usize, AllocError>
        ensures { IfOk result (λ n. n ≡ spec.hidden_number names.now self.now blank.now) }
    {
        match blank {
            BlankNode::Label(label) => sum(names.len(), self.labels.place(label.get().as_str())),
            BlankNode::Anonymous(number) => {
                let first = sum(names.len(), self.labels.len())?;
                sum(first, number.saturating_sub(least(self.span)))
            }
        }
    }
}

/// The hidden variables of these triples.
pub fn hidden_of<'a>(alloc: Global, triples: &'a [Triple]) -> Result<Hidden<'a>, AllocError>
    ensures { IfOk result (λ hidden. hidden ≡ spec.hidden_of triples.now) }
{
    let mut hidden = Hidden::new(alloc);
    for triple in triples {
        hidden.add_triple(triple)?;
    }
    Ok(hidden)
}
