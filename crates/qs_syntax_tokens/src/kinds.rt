//! What some rules begin with (SPARQL 1.1 Query, 19.8).

ghost use Rattle.std.specs.Prelude.{◌≡◌};
ghost use Rattle.qs_syntax_tree.specs.inner.Table as table;

use qs_syntax_tree::kind::Kind;
use qs_syntax_tree::triples::Form;

/// The functions of one argument ([121]).
pub const UNARY_FUNCTIONS: [Kind; 9] = [
    Kind::IsIri,
    Kind::IsUri,
    Kind::IsBlank,
    Kind::IsLiteral,
    Kind::IsNumeric,
    Kind::Str,
    Kind::Lang,
    Kind::Datatype,
    Kind::StrLen,
];

/// Calls of functions ([121]).
pub const CALLS: [Kind; 18] = [
    Kind::Bound,
    Kind::If,
    Kind::Coalesce,
    Kind::Concat,
    Kind::IsIri,
    Kind::IsUri,
    Kind::IsBlank,
    Kind::IsLiteral,
    Kind::IsNumeric,
    Kind::Str,
    Kind::Lang,
    Kind::Datatype,
    Kind::StrLen,
    Kind::SameTerm,
    Kind::LangMatches,
    Kind::Contains,
    Kind::StrStarts,
    Kind::StrEnds,
];

/// Expressions ([110]).
pub const EXPRESSIONS: [Kind; 31] = [
    Kind::Var,
    Kind::LeftParen,
    Kind::Bang,
    Kind::Plus,
    Kind::Hyphen,
    Kind::IriRef,
    Kind::PnameLn,
    Kind::PnameNs,
    Kind::String,
    Kind::Integer,
    Kind::Signed,
    Kind::True,
    Kind::False,
    Kind::Bound,
    Kind::If,
    Kind::Coalesce,
    Kind::Concat,
    Kind::IsIri,
    Kind::IsUri,
    Kind::IsBlank,
    Kind::IsLiteral,
    Kind::IsNumeric,
    Kind::Str,
    Kind::Lang,
    Kind::Datatype,
    Kind::StrLen,
    Kind::SameTerm,
    Kind::LangMatches,
    Kind::Contains,
    Kind::StrStarts,
    Kind::StrEnds,
];

/// Comparisons ([114]).
pub const COMPARISONS: [Kind; 6] = [
    Kind::Equal,
    Kind::BangEqual,
    Kind::Less,
    Kind::Greater,
    Kind::LessOrEqual,
    Kind::GreaterOrEqual,
];

/// What may follow an operand of a comparison ([114]).
pub const RELATIONS: [Kind; 8] = [
    Kind::Equal,
    Kind::BangEqual,
    Kind::Less,
    Kind::Greater,
    Kind::LessOrEqual,
    Kind::GreaterOrEqual,
    Kind::Not,
    Kind::In,
];

/// Terms ([106]).
pub const TERMS: [Kind; 10] = [
    Kind::Var,
    Kind::IriRef,
    Kind::PnameLn,
    Kind::PnameNs,
    Kind::String,
    Kind::Integer,
    Kind::Signed,
    Kind::True,
    Kind::False,
    Kind::BlankLabel,
];

/// Triples ([75], [81]).
pub const NODES: [Kind; 11] = [
    Kind::Var,
    Kind::BlankLabel,
    Kind::LeftBracket,
    Kind::IriRef,
    Kind::PnameLn,
    Kind::PnameNs,
    Kind::String,
    Kind::Integer,
    Kind::Signed,
    Kind::True,
    Kind::False,
];

/// Elements of groups ([56]).
pub const ELEMENTS: [Kind; 7] = [
    Kind::LeftBrace,
    Kind::Optional,
    Kind::Minus,
    Kind::Graph,
    Kind::Filter,
    Kind::Bind,
    Kind::Values,
];

/// Constraints ([69]).
pub const CONSTRAINTS: [Kind; 19] = [
    Kind::LeftParen,
    Kind::Bound,
    Kind::If,
    Kind::Coalesce,
    Kind::Concat,
    Kind::IsIri,
    Kind::IsUri,
    Kind::IsBlank,
    Kind::IsLiteral,
    Kind::IsNumeric,
    Kind::Str,
    Kind::Lang,
    Kind::Datatype,
    Kind::StrLen,
    Kind::SameTerm,
    Kind::LangMatches,
    Kind::Contains,
    Kind::StrStarts,
    Kind::StrEnds,
];

/// Order conditions ([24]).
pub const ORDERS: [Kind; 22] = [
    Kind::Asc,
    Kind::Desc,
    Kind::LeftParen,
    Kind::Bound,
    Kind::If,
    Kind::Coalesce,
    Kind::Concat,
    Kind::IsIri,
    Kind::IsUri,
    Kind::IsBlank,
    Kind::IsLiteral,
    Kind::IsNumeric,
    Kind::Str,
    Kind::Lang,
    Kind::Datatype,
    Kind::StrLen,
    Kind::SameTerm,
    Kind::LangMatches,
    Kind::Contains,
    Kind::StrStarts,
    Kind::StrEnds,
    Kind::Var,
];

/// Values of data ([65]).
pub const VALUES: [Kind; 9] = [
    Kind::IriRef,
    Kind::PnameLn,
    Kind::PnameNs,
    Kind::String,
    Kind::Integer,
    Kind::Signed,
    Kind::True,
    Kind::False,
    Kind::Undef,
];

/// Operations of updates ([30]).
pub const OPERATIONS: [Kind; 9] = [
    Kind::Insert,
    Kind::Delete,
    Kind::With,
    Kind::Clear,
    Kind::Drop,
    Kind::Create,
    Kind::Add,
    Kind::Move,
    Kind::Copy,
];

// verbs of patterns
const PATTERN_VERBS: [Kind; 8] = [
    Kind::Var,
    Kind::Caret,
    Kind::IriRef,
    Kind::PnameLn,
    Kind::PnameNs,
    Kind::A,
    Kind::Bang,
    Kind::LeftParen,
];

// verbs of templates
const TEMPLATE_VERBS: [Kind; 5] = [
    Kind::Var,
    Kind::IriRef,
    Kind::PnameLn,
    Kind::PnameNs,
    Kind::A,
];

/// What a verb begins with ([78], [84], [85]).
pub fn verbs(form: Form) -> &'static [Kind]
    ensures { result.now ≡ table.verbs form }
{
    match form {
        Form::Pattern => &PATTERN_VERBS,
        Form::Template => &TEMPLATE_VERBS,
    }
}
