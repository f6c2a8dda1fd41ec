//! Plans as text: a line a stage, indented by nesting. An expression is printed with its operator first, and a variable by its number, or
//! by its name where names are given.

use crate::plan_type::Plan;
use qs_algebra_patterns::{PathPattern, Slot, Table, TriplePattern};
use qs_expr_meaning::{Addend, BinaryFunction, Comparison, Expr, Sign, UnaryFunction};
use qs_plan_meaning::{Group, Look, Stage};
use qs_syntax_ast::path::{NegatedIri, Path};
use qs_syntax_tree::path::Repetition;
use qs_terms::{Lit, Term, Text};
use std::fmt;

// ---- variables and terms

/// A variable as text: its name after `?`. One that has no name, as a register, is its number after `??`, or after `?` where none has one.
pub struct VariableWord<'a> {
    pub names: &'a [Text],
    pub variable: usize,
}

impl fmt::Display for VariableWord<'_> {
    fn fmt<W: fmt::Write>(&self, f: &mut fmt::Formatter<W>) -> fmt::Result {
        put_variable(f, self.names, self.variable)
    }
}

fn put_variable<W: fmt::Write>(
    f: &mut fmt::Formatter<W>,
    names: &[Text],
    variable: usize,
) -> fmt::Result {
    if names.is_empty() {
        return write!(f, "?{variable}");
    }
    match names.get(variable) {
        Some(name) => {
            let name = name.as_str();
            write!(f, "?{name}")
        }
        None => write!(f, "??{variable}"),
    }
}

/// A character of a literal, escaped as N-Quads does it.
fn put_char<W: fmt::Write>(f: &mut fmt::Formatter<W>, c: char) -> fmt::Result {
    match c {
        '"' => write!(f, "\\\""),
        '\\' => write!(f, "\\\\"),
        '\n' => write!(f, "\\n"),
        '\r' => write!(f, "\\r"),
        _ => write!(f, "{c}"),
    }
}

fn put_form<W: fmt::Write>(f: &mut fmt::Formatter<W>, form: &str) -> fmt::Result {
    write!(f, "\"")?;
    for c in form.chars() {
        put_char(f, c)?;
    }
    write!(f, "\"")
}

fn put_literal<W: fmt::Write>(f: &mut fmt::Formatter<W>, literal: &Lit) -> fmt::Result {
    put_form(f, literal.form())?;
    if let Some(tag) = literal.tag() {
        return write!(f, "@{tag}");
    }
    if literal.is_string() {
        return Ok(());
    }
    let datatype = literal.datatype();
    write!(f, "^^<{datatype}>")
}

fn put_term<W: fmt::Write>(f: &mut fmt::Formatter<W>, term: &Term) -> fmt::Result {
    match term {
        Term::Iri(iri) => {
            let text = iri.text();
            write!(f, "<{text}>")
        }
        Term::Blank(number) => {
            let number = *number;
            write!(f, "_:{number}")
        }
        Term::Literal(literal) => put_literal(f, literal),
    }
}

fn put_slot<W: fmt::Write>(f: &mut fmt::Formatter<W>, names: &[Text], slot: &Slot) -> fmt::Result {
    match slot {
        Slot::Term(term) => put_term(f, term.get()),
        Slot::Variable(variable) => put_variable(f, names, *variable),
    }
}

fn put_look<W: fmt::Write>(f: &mut fmt::Formatter<W>, names: &[Text], look: &Look) -> fmt::Result {
    match look {
        Look::Active => Ok(()),
        Look::Named(name) => {
            write!(f, " in ")?;
            put_term(f, name.get())
        }
        Look::Register(register) => {
            write!(f, " in ")?;
            put_variable(f, names, *register)
        }
    }
}

// ---- paths

fn put_members<W: fmt::Write>(f: &mut fmt::Formatter<W>, members: &[NegatedIri]) -> fmt::Result {
    write!(f, "!(")?;
    for member in members {
        let text = member.iri.text();
        if member.inverse {
            write!(f, "^")?;
        }
        write!(f, "<{text}>|")?;
    }
    write!(f, ")")
}

fn repetition_sign(repetition: Repetition) -> char {
    match repetition {
        Repetition::ZeroOrOne => '?',
        Repetition::ZeroOrMore => '*',
        Repetition::OneOrMore => '+',
    }
}

#[cycle(path)]
fn put_path<W: fmt::Write>(f: &mut fmt::Formatter<W>, path: &Path) -> fmt::Result {
    match path {
        Path::Iri(iri) => {
            let text = iri.text();
            write!(f, "<{text}>")
        }
        Path::NegatedSet(members) => put_members(f, members.as_slice()),
        Path::Alternative(parts) => put_paths(f, '|', parts.as_slice()),
        Path::Sequence(parts) => put_paths(f, '/', parts.as_slice()),
        Path::Inverse(inner) => {
            write!(f, "^")?;
            put_path(f, inner.get())
        }
        Path::Repeated(inner, repetition) => {
            put_path(f, inner.get())?;
            let sign = repetition_sign(*repetition);
            write!(f, "{sign}")
        }
    }
}

#[cycle(path)]
fn put_paths<W: fmt::Write>(f: &mut fmt::Formatter<W>, sign: char, parts: &[Path]) -> fmt::Result {
    write!(f, "({sign}")?;
    for part in parts {
        write!(f, " ")?;
        put_path(f, part)?;
    }
    write!(f, ")")
}

// ---- expressions

fn comparison_word(comparison: Comparison) -> &'static str {
    match comparison {
        Comparison::Equal => "=",
        Comparison::NotEqual => "!=",
        Comparison::Less => "<",
        Comparison::Greater => ">",
        Comparison::LessOrEqual => "<=",
        Comparison::GreaterOrEqual => ">=",
    }
}

fn sign_word(sign: Sign) -> &'static str {
    match sign {
        Sign::Plus => "+",
        Sign::Minus => "-",
    }
}

fn unary_word(function: UnaryFunction) -> &'static str {
    match function {
        UnaryFunction::IsIri => "isIRI",
        UnaryFunction::IsBlank => "isBlank",
        UnaryFunction::IsLiteral => "isLiteral",
        UnaryFunction::IsNumeric => "isNumeric",
        UnaryFunction::Str => "str",
        UnaryFunction::Lang => "lang",
        UnaryFunction::Datatype => "datatype",
        UnaryFunction::StrLen => "strlen",
    }
}

fn binary_word(function: BinaryFunction) -> &'static str {
    match function {
        BinaryFunction::SameTerm => "sameTerm",
        BinaryFunction::LangMatches => "langMatches",
        BinaryFunction::Contains => "contains",
        BinaryFunction::StrStarts => "strStarts",
        BinaryFunction::StrEnds => "strEnds",
    }
}

/// The beginning of an expression with this operator.
fn open<W: fmt::Write>(f: &mut fmt::Formatter<W>, word: &str) -> fmt::Result {
    write!(f, "({word} ")
}

#[cycle(expr)]
fn put_expr<W: fmt::Write>(f: &mut fmt::Formatter<W>, names: &[Text], expr: &Expr) -> fmt::Result {
    match expr {
        Expr::Variable(variable) => put_variable(f, names, *variable),
        Expr::Term(term) => put_term(f, term),
        Expr::Or(parts) => {
            open(f, "||")?;
            put_rest(f, names, parts.as_slice())
        }
        Expr::And(parts) => {
            open(f, "&&")?;
            put_rest(f, names, parts.as_slice())
        }
        Expr::Compare(comparison, left, right) => {
            open(f, comparison_word(*comparison))?;
            put_expr(f, names, left.get())?;
            write!(f, " ")?;
            put_expr(f, names, right.get())?;
            write!(f, ")")
        }
        Expr::In(one, parts) => {
            open(f, "in")?;
            put_expr(f, names, one.get())?;
            write!(f, " ")?;
            put_rest(f, names, parts.as_slice())
        }
        Expr::NotIn(one, parts) => {
            open(f, "not in")?;
            put_expr(f, names, one.get())?;
            write!(f, " ")?;
            put_rest(f, names, parts.as_slice())
        }
        Expr::Sum(first, addends) => {
            open(f, "sum")?;
            put_expr(f, names, first.get())?;
            put_addends(f, names, addends.as_slice())
        }
        Expr::Product(first, factors) => {
            open(f, "*")?;
            put_expr(f, names, first.get())?;
            write!(f, " ")?;
            put_rest(f, names, factors.as_slice())
        }
        Expr::Not(part) => {
            open(f, "!")?;
            put_expr(f, names, part.get())?;
            write!(f, ")")
        }
        Expr::Signed(sign, part) => {
            open(f, sign_word(*sign))?;
            put_expr(f, names, part.get())?;
            write!(f, ")")
        }
        Expr::Bound(variable) => {
            open(f, "bound")?;
            put_variable(f, names, *variable)?;
            write!(f, ")")
        }
        Expr::If(test, yes, no) => {
            open(f, "if")?;
            put_expr(f, names, test.get())?;
            write!(f, " ")?;
            put_expr(f, names, yes.get())?;
            write!(f, " ")?;
            put_expr(f, names, no.get())?;
            write!(f, ")")
        }
        Expr::Coalesce(parts) => {
            open(f, "coalesce")?;
            put_rest(f, names, parts.as_slice())
        }
        Expr::Concat(parts) => {
            open(f, "concat")?;
            put_rest(f, names, parts.as_slice())
        }
        Expr::Unary(function, part) => {
            open(f, unary_word(*function))?;
            put_expr(f, names, part.get())?;
            write!(f, ")")
        }
        Expr::Binary(function, left, right) => {
            open(f, binary_word(*function))?;
            put_expr(f, names, left.get())?;
            write!(f, " ")?;
            put_expr(f, names, right.get())?;
            write!(f, ")")
        }
    }
}

/// Operands with blanks between them, and the end of their expression.
#[cycle(expr)]
fn put_rest<W: fmt::Write>(
    f: &mut fmt::Formatter<W>,
    names: &[Text],
    parts: &[Expr],
) -> fmt::Result {
    let mut is_first = true;
    for part in parts {
        if !is_first {
            write!(f, " ")?;
        }
        put_expr(f, names, part)?;
        is_first = false;
    }
    write!(f, ")")
}

#[cycle(expr)]
fn put_addends<W: fmt::Write>(
    f: &mut fmt::Formatter<W>,
    names: &[Text],
    addends: &[Addend],
) -> fmt::Result {
    for addend in addends {
        let sign = sign_word(addend.sign);
        write!(f, " {sign}")?;
        put_expr(f, names, &addend.operand)?;
    }
    write!(f, ")")
}

fn put_conditions<W: fmt::Write>(
    f: &mut fmt::Formatter<W>,
    names: &[Text],
    conditions: &[Expr],
) -> fmt::Result {
    for condition in conditions {
        write!(f, " if ")?;
        put_expr(f, names, condition)?;
    }
    Ok(())
}

// ---- stages

fn put_triple<W: fmt::Write>(
    f: &mut fmt::Formatter<W>,
    names: &[Text],
    pattern: &TriplePattern,
) -> fmt::Result {
    write!(f, "triple ")?;
    put_slot(f, names, &pattern.subject)?;
    write!(f, " ")?;
    put_slot(f, names, &pattern.predicate)?;
    write!(f, " ")?;
    put_slot(f, names, &pattern.object)
}

fn put_path_pattern<W: fmt::Write>(
    f: &mut fmt::Formatter<W>,
    names: &[Text],
    pattern: &PathPattern,
) -> fmt::Result {
    write!(f, "path ")?;
    put_slot(f, names, &pattern.subject)?;
    write!(f, " ")?;
    put_path(f, pattern.path.get())?;
    write!(f, " ")?;
    put_slot(f, names, &pattern.object)
}

fn put_table<W: fmt::Write>(
    f: &mut fmt::Formatter<W>,
    names: &[Text],
    table: &Table,
) -> fmt::Result {
    write!(f, "values")?;
    for at in 0..table.variables.len() {
        let variable = table.variables.as_slice()[at];
        write!(f, " ")?;
        put_variable(f, names, variable)?;
    }
    let rows = table.rows.len();
    write!(f, ", rows: {rows}")
}

fn put_register<W: fmt::Write>(
    f: &mut fmt::Formatter<W>,
    names: &[Text],
    word: &str,
    register: Option<usize>,
) -> fmt::Result {
    match register {
        None => write!(f, "{word}"),
        Some(register) => {
            write!(f, "{word} of ")?;
            put_variable(f, names, register)
        }
    }
}

fn put_indent<W: fmt::Write>(f: &mut fmt::Formatter<W>, depth: usize) -> fmt::Result {
    for _ in 0..depth {
        write!(f, "  ")?;
    }
    Ok(())
}

/// The stage as a line, without the stages of its groups and the end of the line.
fn put_line<W: fmt::Write>(
    f: &mut fmt::Formatter<W>,
    names: &[Text],
    stage: &Stage,
) -> fmt::Result {
    match stage {
        Stage::Triple(look, pattern) => {
            put_triple(f, names, pattern)?;
            put_look(f, names, look)
        }
        Stage::Path(look, pattern) => {
            put_path_pattern(f, names, pattern)?;
            put_look(f, names, look)
        }
        Stage::Exists(name) => {
            write!(f, "exists ")?;
            put_term(f, name.get())
        }
        Stage::Names(register) => {
            write!(f, "names ")?;
            put_variable(f, names, *register)
        }
        Stage::Name(variable, register) => {
            write!(f, "name ")?;
            put_variable(f, names, *variable)?;
            write!(f, " = ")?;
            put_variable(f, names, *register)
        }
        Stage::Filter(condition) => {
            write!(f, "filter ")?;
            put_expr(f, names, condition.get())
        }
        Stage::Bind(variable, expr) => {
            write!(f, "bind ")?;
            put_variable(f, names, *variable)?;
            write!(f, " = ")?;
            put_expr(f, names, expr.get())
        }
        Stage::Values(table) => put_table(f, names, table.get()),
        Stage::Union(_) => write!(f, "union"),
        Stage::Optional(register, _, conditions) => {
            put_register(f, names, "optional", *register)?;
            put_conditions(f, names, conditions.get().as_slice())
        }
        Stage::Fed(_, conditions) => {
            write!(f, "optional, fed")?;
            put_conditions(f, names, conditions.get().as_slice())
        }
        Stage::Minus(register, _) => put_register(f, names, "minus", *register),
        Stage::Apart(register, _) => put_register(f, names, "join", *register),
    }
}

/// A stage as a line, without the stages of its groups and the end of the line. Variables are printed as `VariableWord` does it.
pub struct StageLine<'a> {
    pub names: &'a [Text],
    pub stage: &'a Stage,
}

impl fmt::Display for StageLine<'_> {
    fn fmt<W: fmt::Write>(&self, f: &mut fmt::Formatter<W>) -> fmt::Result {
        put_line(f, self.names, self.stage)
    }
}

// ---- plans

/// The stages with those of their groups, a line each.
#[cycle(stages)]
fn put_stages<W: fmt::Write>(
    f: &mut fmt::Formatter<W>,
    stages: &[Stage],
    depth: usize,
) -> fmt::Result {
    for stage in stages {
        put_indent(f, depth)?;
        put_line(f, &[], stage)?;
        writeln!(f)?;
        put_groups(f, stage, depth.saturating_add(1))?;
    }
    Ok(())
}

/// The stages of the groups of a stage.
#[cycle(stages)]
fn put_groups<W: fmt::Write>(
    f: &mut fmt::Formatter<W>,
    stage: &Stage,
    depth: usize,
) -> fmt::Result {
    match stage {
        Stage::Union(branches) => put_branches(f, branches.as_slice(), depth),
        Stage::Optional(_, group, _) => put_group(f, group, depth),
        Stage::Fed(group, _) => put_group(f, group, depth),
        Stage::Minus(_, group) => put_group(f, group, depth),
        Stage::Apart(_, group) => put_group(f, group, depth),
        _ => Ok(()),
    }
}

#[cycle(stages)]
fn put_group<W: fmt::Write>(f: &mut fmt::Formatter<W>, group: &Group, depth: usize) -> fmt::Result {
    put_stages(f, group.stages.as_slice(), depth)
}

#[cycle(stages)]
fn put_branches<W: fmt::Write>(
    f: &mut fmt::Formatter<W>,
    branches: &[Group],
    depth: usize,
) -> fmt::Result {
    for branch in branches {
        put_indent(f, depth)?;
        writeln!(f, "branch")?;
        put_group(f, branch, depth.saturating_add(1))?;
    }
    Ok(())
}

impl fmt::Display for Plan {
    fn fmt<W: fmt::Write>(&self, f: &mut fmt::Formatter<W>) -> fmt::Result {
        put_stages(f, self.stages.as_slice(), 0)
    }
}
