//! What holds of all texts.

ghost use Rattle.std.specs.Prelude.{◌≡◌, List, ℕ, [], Ok, Err};
ghost use Rattle.std.specs.List.{AllByRecursion};
ghost use Rattle.std.specs.Str.{IsUtf8};
ghost use Rattle.qs_syntax_ast.specs.declared.query.Query.{Query};
ghost use Rattle.qs_syntax_ast.specs.declared.update.Update.{Update};
ghost use Rattle.qs_lex_escapes.specs.Piece.{piece};
ghost use Rattle.qs_lex.specs.inner.Fault.{HasToken};
ghost use Rattle.qs_lex.specs.Lexes.{Lexeme, Lexes};
ghost use Rattle.qs_terms.specs.Outcome.{Outcome};
ghost use Rattle.qs_terms.specs.declared.fault.QFault.TheVariants.{Syntax};
ghost use Rattle.qs_syntax_tree.specs.declared.token.Token.{Token};
ghost use Rattle.qs_syntax.specs.inner.Granted.{IsGrantedToken};
ghost use Rattle.qs_syntax.specs.Kinds.{token_of};
ghost use Rattle.qs_syntax.specs.Outcome.{IsQueryOutcome, IsUpdateOutcome};
ghost use Rattle.qs_syntax.specs.Text.{AreTokensOf};

use qs_lex::laws::{one_token_list, some_token_list, tokens_are_sound};
use qs_syntax_tree::laws::one_tree;

/// A text results in one thing at most: one query, or one fault; and so does it as an update.
pub fn one_outcome()
    ensures of_query { (text : List ℕ) (one other : Outcome Query) → IsQueryOutcome text one
        → IsQueryOutcome text other → one ≡ other }
    ensures of_update { (text : List ℕ) (one other : Outcome Update) → IsUpdateOutcome text one
        → IsUpdateOutcome text other → one ≡ other }
{
    one_token_list();
    one_tree();
}

/// A text results in something: to a query, or to a fault that is due; and so does it as an update.
pub fn some_outcome()
    ensures of_query { (text : List ℕ) → IsUtf8 text → (outcome : Outcome Query)
        × IsQueryOutcome text outcome }
    ensures of_update { (text : List ℕ) → IsUtf8 text → (outcome : Outcome Update)
        × IsUpdateOutcome text outcome }
{
    some_token_list();
}

/// The tokens of a text are what the layers above take for granted: the span of each is the piece of the text that the token is; what
/// is read of an IRI, a name, a variable, a label, a string or a tag is a piece of it; an escape begins at each backslash in a string or an
/// IRI; a decoded IRI, and a local name without its backslashes, have no character that IRIs exclude; and a tag is one in the eyes of the
/// terms. So what the definitions say of other pieces, backslashes, IRIs and tags never applies.
pub fn tokens_are_granted()
    ensures pieces { (text : List ℕ) (ts : List Lexeme) → IsUtf8 text → Lexes text ts
        → AllByRecursion (λ t. piece text (token_of t).span.start (token_of t).span.end ≡ t.text)
        ts }
    ensures parts { (text : List ℕ) (tokens : List Token) → IsUtf8 text → AreTokensOf text tokens
        → AllByRecursion (IsGrantedToken text) tokens }
{
    tokens_are_sound();
}

/// The empty text results in a fault of syntax at 0, and has no token: so `parse_query` answers that fault, and no running out of memory.
pub fn empty_text_is_no_query()
    ensures fault { IsQueryOutcome [] (Err (Syntax 0)) }
    ensures no_token { HasToken [] → ⊥ }
{
    one_token_list();
}
