//! Variables in the order in which they first appear.

ghost use Rattle.std.specs.Prelude.{◌≡◌, ◌∷◌, [], ◌++◌, take, IfOk, OnOk, if◌then◌else◌};
ghost use Rattle.qs_syntax_scope.specs.Firsts.{names_of, firsts};
ghost use Rattle.qs_syntax_scope.specs.inner.Firsts.{with_name, with_names};
ghost use Rattle.qs_syntax_scope.specs.Names.{contains};

use crate::name::Name;
use crate::name_list::NameList;
use qs_syntax_ast::term::Variable;
use sqlite_items::Items;
use std::alloc::{AllocError, Global};

// The variable of the name after the others, unless the name stands before its place.
fn put_first<'a>(
    names: &NameList<'a>,
    found: &mut Items<Variable>,
    place: usize,
    name: &Name<'a>,
) -> Result<(), AllocError>
    ensures { OnOk result (found.new ≡ (if contains (take place names.now) name.now then found.old
        else found.old ++ with_name name.now ∷ [])) }
{
    if names.is_before(place, name.text()) {
        return Ok(());
    }
    let variable = name.variable()?;
    found.push(variable)
}

/// The variables of the names, each once, in the order in which they first appear.
#[tactic(auto, using(crate::proofs::FirstsKept::first_more))]
pub fn first_of_names(alloc: Global, names: &NameList<'_>) -> Result<Items<Variable>, AllocError>
    ensures { IfOk result (λ found. found ≡ firsts (with_names names.now)) }
{
    let all = names.as_slice();
    let mut found = Items::new(alloc);
    for place in 0..all.len() {
        put_first(names, &mut found, place, &all[place])?;
    }
    Ok(found)
}

/// The variables, each once, in the order in which they first appear (SPARQL 1.1 Query, 16.1: what `SELECT *` lists).
#[tactic(auto, using(crate::proofs::FirstsKept::with_own_names))]
pub fn first_variables(alloc: Global, variables: &[Variable]) -> Result<Items<Variable>, AllocError>
    ensures { IfOk result (λ found. found ≡ firsts variables.now) }
{
    let names = number_names(alloc, variables)?;
    first_of_names(alloc, &names)
}

/// The names of the variables, numbered by their places.
pub fn number_names<'a>(
    alloc: Global,
    variables: &'a [Variable],
) -> Result<NameList<'a>, AllocError>
    ensures { IfOk result (λ names. names ≡ names_of variables.now) }
{
    let mut names = NameList::new(alloc);
    for variable in variables {
        names.push(&variable.name)?;
    }
    Ok(names)
}
