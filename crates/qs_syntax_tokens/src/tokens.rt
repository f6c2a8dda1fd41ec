//! A cursor over tokens.

ghost use Rattle.std.specs.Prelude.{◌≡◌, ◌+◌, length};
ghost use Rattle.qs_syntax_grammar.specs.inner.Reading.{starts, take_kind, has};
ghost use Rattle.qs_syntax_tokens.specs.inner.Exactly.{ReadsExactly};
ghost use Rattle.qs_syntax_grammar.specs.inner.Grammar.{read};
ghost use Rattle.qs_syntax_grammar.specs.Notation.{◌<<◌};
ghost use Rattle.qs_syntax_grammar.specs.Rule.{empty, place_of, token};
ghost use Rattle.qs_syntax_tree.specs.inner.Table.{guided};
ghost use Rattle.qs_syntax_tree.specs.Sparql.{sparql};
ghost use Rattle.qs_syntax_tree.specs.Sparql as spec;
ghost use Rattle.qs_syntax_grammar.specs.declared.fault.Fault.TheVariants as Fault;

use qs_syntax_grammar::fault::Fault;
use qs_syntax_tree::kind::Kind;
use qs_syntax_tree::token::Token;
use std::marker::Model;

/// The tokens that are left.
#[derive(Drop)]
pub struct Tokens<'a> {
    rest: &'a [Token],
}

impl<'a> Model for Tokens<'a> {
    ghost use Rattle.std.specs.Prelude.{List};
    ghost use Rattle.qs_syntax_tree.specs.declared.token.Token.{Token};

    ghost Value = { List Token };

    ghost view = { λ t. t.rest.now };
}

fn same_kind(a: Kind, b: Kind) -> bool
    ensures { result ≡ spec.same_kind a b }
{
    a == b
}

fn is_among(kind: Kind, kinds: &[Kind]) -> bool
    ensures { result ≡ has sparql kinds.now kind }
{
    kinds.iter().any(|k| same_kind(kind, *k))
}

impl<'a> Tokens<'a> {
    /// All the tokens.
    pub fn new(tokens: &'a [Token]) -> Tokens<'a>
        ensures { result ≡ tokens.now }
    {
        Tokens { rest: tokens }
    }

    /// How many tokens are left.
    pub fn left(&self) -> usize
        ensures { result ≡ length self.now }
    {
        self.rest.len()
    }

    /// How often a loop may turn that takes a token in each turn but the last.
    pub fn turns(&self) -> usize
        ensures { result ≡ length self.now + 1 }
    {
        self.rest.len() + 1
    }

    /// Where the next token begins, or 0.
    pub fn place(&self) -> usize
        ensures { result ≡ place_of sparql self.now }
    {
        match self.rest {
            [first, ..] => first.span.start,
            [] => 0,
        }
    }

    /// Whether the next token is of one of the kinds.
    pub fn peek_is(&self, kinds: &[Kind]) -> bool
        ensures { result ≡ starts sparql kinds.now self.now }
    {
        match self.rest {
            [first, ..] => {
                let found = first.kind;
                is_among(found, kinds)
            }
            [] => false,
        }
    }

    /// The fault at the next token.
    pub fn refuse(&self) -> Fault
        ensures { result ≡ Fault.Syntax (length self.now) }
    {
        Fault::Syntax(self.rest.len())
    }

    /// Takes the next token, which must be of the kind.
    pub fn expect(&mut self, kind: Kind) -> Result<Token, Fault>
        ensures { ReadsExactly (take_kind sparql kind self.old) result self.new }
    {
        match self.rest {
            [first, rest @ ..] if is_among(first.kind, &[kind]) => {
                let found = *first;
                self.rest = rest;
                Ok(found)
            }
            _ => Err(self.refuse()),
        }
    }

    /// The value, after which the next token must be of the kind. A procedure that ends so drops no tree by itself.
    pub fn closing<T: Drop>(&mut self, value: T, kind: Kind) -> Result<T, Fault>
        ensures { ReadsExactly (read guided 0 (empty value << token kind) self.old) result
            self.new }
    {
        self.expect(kind)?;
        Ok(value)
    }
}
