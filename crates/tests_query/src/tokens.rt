//! Token lists (SPARQL 1.1 Query, 19.8).

use crate::outcome::Outcome;
use qs_lex::{Class, Token, tokens};
use std::alloc::Global;

const TEXT: &str =
    "\u{e9}:\u{fc} ?\u{f1} _:\u{df}#\u{e9}\n\"\u{65e5}\"@en-US <http://e/\u{e9}> a: 1 -2 1.e0 .5 SELECT&&\n?a-b 1-1 a:b.c. 1e+ a<b<=c |||^^^!!=>>= \"\"\"a\"\na:b.c a.b:c :a a:b..c a:b: a:1 a:_ :: a:%41\\-b a:\\. a:b\\# a:b%fF a-b:c a\u{b7}:\u{e9} \u{10348}:a\n: a.b: a-: \u{37f}\u{300}\u{203f}: \u{effff}:\n_:1 _:_ _:a.b _:a..-\n$a ?1 ?_ ?a\u{b7}\u{301}\u{2040}1\na1_b Z_\n@a-1-bc\n<> <#a> <=> <?b&&?c> <a\\u0041b> <\\U0001F600>\n007\n+1\n-1.50 +.5\n1e5 1.5E-3 +.5e+0 -1E1\n\"\" 'a\"b' \"\\t\\b\\n\\r\\f\\\"\\'\\\\\" '\\t\\b\\n\\r\\f\\\"\\'\\\\' \"\\u00e9\\U0010FFFF\\uD7FF\\uE000\" \"#\" \"\"\"\"\"\" \"\"\"a\nb\rc\"\"\" \"\"\"a\"\"b\"c\\\"\"\"\" \"\"\"\"a\"\"\" '''a''b'c\"\"\"\\u0041'''\n|| ^^ != <= >=";

/// The tokens of that text with their places in bytes: one of each class, neighbours that the longest token parts, and each class once more.
const TOKENS: &[(Class, usize, &str)] = &[
    (Class::PnameLn, 0, "\u{e9}:\u{fc}"),
    (Class::Var, 6, "?\u{f1}"),
    (Class::BlankLabel, 10, "_:\u{df}"),
    (Class::String, 18, "\"\u{65e5}\""),
    (Class::LangTag, 23, "@en-US"),
    (Class::IriRef, 30, "<http://e/\u{e9}>"),
    (Class::PnameNs, 44, "a:"),
    (Class::Integer, 47, "1"),
    (Class::Signed, 49, "-2"),
    (Class::Double, 52, "1.e0"),
    (Class::Decimal, 57, ".5"),
    (Class::Word, 60, "SELECT"),
    (Class::Mark, 66, "&&"),
    (Class::Var, 69, "?a"),
    (Class::Mark, 71, "-"),
    (Class::Word, 72, "b"),
    (Class::Integer, 74, "1"),
    (Class::Signed, 75, "-1"),
    (Class::PnameLn, 78, "a:b.c"),
    (Class::Mark, 83, "."),
    (Class::Integer, 85, "1"),
    (Class::Word, 86, "e"),
    (Class::Mark, 87, "+"),
    (Class::Word, 89, "a"),
    (Class::Mark, 90, "<"),
    (Class::Word, 91, "b"),
    (Class::Mark, 92, "<="),
    (Class::Word, 94, "c"),
    (Class::Mark, 96, "||"),
    (Class::Mark, 98, "|"),
    (Class::Mark, 99, "^^"),
    (Class::Mark, 101, "^"),
    (Class::Mark, 102, "!"),
    (Class::Mark, 103, "!="),
    (Class::Mark, 105, ">"),
    (Class::Mark, 106, ">="),
    (Class::String, 109, "\"\""),
    (Class::String, 111, "\"a\""),
    (Class::PnameLn, 115, "a:b.c"),
    (Class::PnameLn, 121, "a.b:c"),
    (Class::PnameLn, 127, ":a"),
    (Class::PnameLn, 130, "a:b..c"),
    (Class::PnameLn, 137, "a:b:"),
    (Class::PnameLn, 142, "a:1"),
    (Class::PnameLn, 146, "a:_"),
    (Class::PnameLn, 150, "::"),
    (Class::PnameLn, 153, "a:%41\\-b"),
    (Class::PnameLn, 162, "a:\\."),
    (Class::PnameLn, 167, "a:b\\#"),
    (Class::PnameLn, 173, "a:b%fF"),
    (Class::PnameLn, 180, "a-b:c"),
    (Class::PnameLn, 186, "a\u{b7}:\u{e9}"),
    (Class::PnameLn, 193, "\u{10348}:a"),
    (Class::PnameNs, 200, ":"),
    (Class::PnameNs, 202, "a.b:"),
    (Class::PnameNs, 207, "a-:"),
    (Class::PnameNs, 211, "\u{37f}\u{300}\u{203f}:"),
    (Class::PnameNs, 220, "\u{effff}:"),
    (Class::BlankLabel, 226, "_:1"),
    (Class::BlankLabel, 230, "_:_"),
    (Class::BlankLabel, 234, "_:a.b"),
    (Class::BlankLabel, 240, "_:a..-"),
    (Class::Var, 247, "$a"),
    (Class::Var, 250, "?1"),
    (Class::Var, 253, "?_"),
    (Class::Var, 256, "?a\u{b7}\u{301}\u{2040}1"),
    (Class::Word, 267, "a1_b"),
    (Class::Word, 272, "Z_"),
    (Class::LangTag, 275, "@a-1-bc"),
    (Class::IriRef, 283, "<>"),
    (Class::IriRef, 286, "<#a>"),
    (Class::IriRef, 291, "<=>"),
    (Class::IriRef, 295, "<?b&&?c>"),
    (Class::IriRef, 304, "<a\\u0041b>"),
    (Class::IriRef, 315, "<\\U0001F600>"),
    (Class::Integer, 328, "007"),
    (Class::Signed, 332, "+1"),
    (Class::Decimal, 335, "-1.50"),
    (Class::Decimal, 341, "+.5"),
    (Class::Double, 345, "1e5"),
    (Class::Double, 349, "1.5E-3"),
    (Class::Double, 356, "+.5e+0"),
    (Class::Double, 363, "-1E1"),
    (Class::String, 368, "\"\""),
    (Class::String, 371, "'a\"b'"),
    (Class::String, 377, "\"\\t\\b\\n\\r\\f\\\"\\'\\\\\""),
    (Class::String, 396, "'\\t\\b\\n\\r\\f\\\"\\'\\\\'"),
    (Class::String, 415, "\"\\u00e9\\U0010FFFF\\uD7FF\\uE000\""),
    (Class::String, 446, "\"#\""),
    (Class::String, 450, "\"\"\"\"\"\""),
    (Class::String, 457, "\"\"\"a\nb\rc\"\"\""),
    (Class::String, 469, "\"\"\"a\"\"b\"c\\\"\"\"\""),
    (Class::String, 484, "\"\"\"\"a\"\"\""),
    (Class::String, 493, "'''a''b'c\"\"\"\\u0041'''"),
    (Class::Mark, 515, "||"),
    (Class::Mark, 518, "^^"),
    (Class::Mark, 521, "!="),
    (Class::Mark, 524, "<="),
    (Class::Mark, 527, ">="),
];

fn are_tokens(found: &[Token<'_>]) -> bool {
    for (token, (class, place, text)) in found.iter().zip(TOKENS) {
        if token.class() != *class || token.place() != *place || token.text() != *text {
            return false;
        }
    }
    found.len() == TOKENS.len()
}

/// Whether the text has these tokens.
pub fn outcome(alloc: Global) -> Outcome {
    match tokens(alloc, TEXT) {
        Ok(found) => Outcome::of_answer(are_tokens(found.as_slice())),
        Err(fault) => Outcome::of_fault(&fault),
    }
}
