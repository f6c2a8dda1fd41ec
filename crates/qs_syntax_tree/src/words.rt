//! The kinds of words and marks, as they are written.

ghost use Rattle.std.specs.Prelude.{◌≡◌, map, filter, length, nat_eq};
ghost use Rattle.std.specs.Str.{bytes_eq, str_eq_ignore_ascii_case};
ghost use Rattle.qs_syntax_tree.specs.declared.kind.Kind.TheVariants as k;
ghost use Rattle.qs_syntax_tree.specs.Words.{find_kind};
ghost use Rattle.qs_syntax_tree.specs.Words as spec;

use crate::kind::Kind;

// Keywords and names of functions, which are matched without regard to case; by their lengths, so that a word is compared with few.
const OF_TWO: [(&str, Kind); 5] = [
    ("as", Kind::As),
    ("by", Kind::By),
    ("in", Kind::In),
    ("to", Kind::To),
    ("if", Kind::If),
];

const OF_THREE: [(&str, Kind); 6] = [
    ("ask", Kind::Ask),
    ("asc", Kind::Asc),
    ("not", Kind::Not),
    ("all", Kind::All),
    ("add", Kind::Add),
    ("str", Kind::Str),
];

const OF_FOUR: [(&str, Kind); 9] = [
    ("desc", Kind::Desc),
    ("bind", Kind::Bind),
    ("true", Kind::True),
    ("data", Kind::Data),
    ("with", Kind::With),
    ("drop", Kind::Drop),
    ("move", Kind::Move),
    ("copy", Kind::Copy),
    ("lang", Kind::Lang),
];

const OF_FIVE: [(&str, Kind); 13] = [
    ("where", Kind::Where),
    ("order", Kind::Order),
    ("limit", Kind::Limit),
    ("union", Kind::Union),
    ("minus", Kind::Minus),
    ("graph", Kind::Graph),
    ("undef", Kind::Undef),
    ("false", Kind::False),
    ("clear", Kind::Clear),
    ("named", Kind::Named),
    ("bound", Kind::Bound),
    ("isiri", Kind::IsIri),
    ("isuri", Kind::IsUri),
];

const OF_SIX: [(&str, Kind); 11] = [
    ("prefix", Kind::Prefix),
    ("select", Kind::Select),
    ("offset", Kind::Offset),
    ("filter", Kind::Filter),
    ("values", Kind::Values),
    ("insert", Kind::Insert),
    ("delete", Kind::Delete),
    ("silent", Kind::Silent),
    ("create", Kind::Create),
    ("concat", Kind::Concat),
    ("strlen", Kind::StrLen),
];

const OF_SEVEN: [(&str, Kind); 4] = [
    ("reduced", Kind::Reduced),
    ("default", Kind::Default),
    ("isblank", Kind::IsBlank),
    ("strends", Kind::StrEnds),
];

const OF_EIGHT: [(&str, Kind); 6] = [
    ("distinct", Kind::Distinct),
    ("optional", Kind::Optional),
    ("coalesce", Kind::Coalesce),
    ("sameterm", Kind::SameTerm),
    ("datatype", Kind::Datatype),
    ("contains", Kind::Contains),
];

const OF_NINE: [(&str, Kind); 4] = [
    ("construct", Kind::Construct),
    ("isliteral", Kind::IsLiteral),
    ("isnumeric", Kind::IsNumeric),
    ("strstarts", Kind::StrStarts),
];

const OF_ELEVEN: [(&str, Kind); 1] = [("langmatches", Kind::LangMatches)];

// Marks, which are matched as they are written.
const MARKS: [(&str, Kind); 26] = [
    ("{", Kind::LeftBrace),
    ("}", Kind::RightBrace),
    ("(", Kind::LeftParen),
    (")", Kind::RightParen),
    ("[", Kind::LeftBracket),
    ("]", Kind::RightBracket),
    (".", Kind::Dot),
    (",", Kind::Comma),
    (";", Kind::Semicolon),
    ("*", Kind::Star),
    ("/", Kind::Slash),
    ("+", Kind::Plus),
    ("-", Kind::Hyphen),
    ("|", Kind::Bar),
    ("||", Kind::OrOr),
    ("^", Kind::Caret),
    ("^^", Kind::CaretCaret),
    ("?", Kind::Question),
    ("!", Kind::Bang),
    ("!=", Kind::BangEqual),
    ("=", Kind::Equal),
    ("<", Kind::Less),
    (">", Kind::Greater),
    ("<=", Kind::LessOrEqual),
    (">=", Kind::GreaterOrEqual),
    ("&&", Kind::AndAnd),
];

// the keywords of so many bytes
fn keywords_of(count: usize) -> &'static [(&'static str, Kind)]
    ensures { map (λ row. (row.0.now, row.1)) result.now
        ≡ filter (λ row. nat_eq (length row.0) count) spec.keywords }
{
    match count {
        2 => &OF_TWO,
        3 => &OF_THREE,
        4 => &OF_FOUR,
        5 => &OF_FIVE,
        6 => &OF_SIX,
        7 => &OF_SEVEN,
        8 => &OF_EIGHT,
        9 => &OF_NINE,
        11 => &OF_ELEVEN,
        _ => &[],
    }
}

fn like_keyword(a: &str, b: &str) -> bool
    ensures { result ≡ str_eq_ignore_ascii_case a.now b.now }
{
    a.eq_ignore_ascii_case(b)
}

fn find_keyword(mut table: &[(&str, Kind)], word: &str) -> Kind
    ensures { result ≡ find_kind str_eq_ignore_ascii_case k.Word
        (map (λ row. (row.0.now, row.1)) table.entry.now) word.now }
{
    while let [row, rest @ ..] = table {
        if like_keyword(word, row.0) {
            return row.1;
        }
        table = rest;
    }
    Kind::Word
}

fn same_mark(a: &str, b: &str) -> bool
    ensures { result ≡ bytes_eq a.now b.now }
{
    a == b
}

fn find_mark(mut table: &[(&str, Kind)], mark: &str) -> Kind
    ensures { result ≡ find_kind bytes_eq k.Word (map (λ row. (row.0.now, row.1)) table.entry.now)
        mark.now }
{
    while let [row, rest @ ..] = table {
        if same_mark(mark, row.0) {
            return row.1;
        }
        table = rest;
    }
    Kind::Word
}

/// The kind of a word (SPARQL 1.1 Query, 19.8: keywords are matched without regard to case, `a` as it is written).
#[tactic(auto, unfolding(crate::specs::Words::word_kind))]
pub fn word_kind(word: &str) -> Kind
    ensures { result ≡ spec.word_kind word.now }
{
    if same_mark(word, "a") {
        return Kind::A;
    }
    find_keyword(keywords_of(word.len()), word)
}

/// The kind of a mark.
#[tactic(auto, unfolding(crate::specs::Words::mark_kind))]
pub fn mark_kind(mark: &str) -> Kind
    ensures { result ≡ spec.mark_kind mark.now }
{
    find_mark(&MARKS, mark)
}
