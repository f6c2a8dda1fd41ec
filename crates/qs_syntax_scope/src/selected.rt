//! The items of SELECT.

ghost use Rattle.std.specs.Prelude.{◌≡◌, OnOk, IfOk};
ghost use Rattle.std.specs.List.{fold};
ghost use Rattle.qs_syntax_scope.specs.Selected as spec;
ghost use Rattle.qs_syntax_scope.specs.inner.Selected.{add_item};

use crate::met::Met;
use crate::name_list::NameList;
use qs_syntax_ast::query::{Projection, SelectItem};
use std::alloc::AllocError;

fn add_item<'a>(met: &mut Met<'a>, item: &'a SelectItem) -> Result<(), AllocError>
    ensures { OnOk result (met.new ≡ add_item met.old item.now) }
{
    match item {
        SelectItem::Variable(variable) => met.push(&variable.name),
        SelectItem::As(_, variable) => met.add_new(&variable.name),
    }
}

fn add_items<'a>(met: &mut Met<'a>, items: &'a [SelectItem]) -> Result<(), AllocError>
    ensures { OnOk result (met.new ≡ fold add_item met.old items.now) }
{
    for item in items {
        add_item(met, item)?;
    }
    Ok(())
}

/// Whether no variable after AS is among the given ones, or that of an earlier item.
#[tactic(auto, using(crate::proofs::Plain::items_kept))]
pub fn selected_are_new<'a>(
    taken: NameList<'a>,
    projection: &'a Projection,
) -> Result<bool, AllocError>
    ensures { IfOk result (λ b. b ≡ spec.selected_are_new taken.entry projection.now) }
{
    let mut met = Met {
        names: taken,
        keeps: true,
    };
    if let Projection::Items(items) = projection {
        add_items(&mut met, items.as_slice())?;
    }
    Ok(met.keeps)
}
