//! What follows the names of graphs in a program, where one level serves for both.

ghost use Rattle.std.specs.Prelude.{◌≡◌, true, IfSome};
ghost use Rattle.qs_ops_scans.specs.inner.Each.{misses};
ghost use Rattle.qs_ops_scans.specs.declared.look.PreparedLook.TheVariants as prepared;
ghost use Rattle.qs_ops_walk.specs.inner.After.{IsAfterNames, IsInEach, IsJoined, IsJoining};
ghost use Rattle.qs_ops_walk.specs.declared.work.Work.TheVariants as variant;

use crate::work::{Place, Work};
use qs_expr::{Cell, Row};
use qs_ops_scans::{PreparedLook, PreparedTriple, gives_number, misses};

/// A triple pattern that is matched in each named graph, whose name the register holds, and the position where its rows go on.
#[derive(Clone, Copy)]
pub(crate) struct Each<'w> {
    pub(crate) register: usize,
    pub(crate) pattern: &'w PreparedTriple,
    pub(crate) next: usize,
}

/// The triple pattern of the place, if it looks in the graph that the register names and has no such variable.
fn pattern_named<'w>(place: &'w Place<'_>, register: usize) -> Option<&'w PreparedTriple>
    ensures triple { IfSome result
        (λ p. place.now.work ≡ variant.Triple (prepared.Register register) p.now) }
    ensures apart { IfSome result (λ p. misses register p.now ≡ true) }
{
    let Work::Triple(PreparedLook::Register(held), pattern) = &place.work else {
        return None;
    };
    if *held != register || !misses(pattern, register) {
        return None;
    }
    Some(pattern)
}

/// The triple pattern that follows the place, if the place gives the names of graphs, and what the pattern makes of the row in each of them
/// is found by one scan.
fn pattern_in_each<'w>(places: &'w [Place<'_>], place: &Place<'_>, row: &Row) -> Option<Each<'w>>
    ensures { IfSome result (λ e. IsInEach places.now place.now row.now e) }
{
    let Work::Names(naming) = &place.work else {
        return None;
    };
    let follows = place.instr.next();
    if follows == 0 || row.width() <= naming.register {
        return None;
    }
    let Some(after) = places.get(follows - 1) else {
        return None;
    };
    let Some(pattern) = pattern_named(after, naming.register) else {
        return None;
    };
    if !gives_number(pattern, row) {
        return None;
    }
    Some(Each {
        register: naming.register,
        pattern,
        next: after.instr.next(),
    })
}

/// A named variable that is merged with the name of each graph in turn, the register that holds the name, and the position where the rows
/// go on.
#[derive(Clone, Copy)]
pub(crate) struct Joining {
    pub(crate) variable: usize,
    pub(crate) register: usize,
    pub(crate) next: usize,
}

/// The variable that is merged with the names of graphs right after the place, if the place gives them.
fn joining_after(
    places: &[Place<'_>],
    place: &Place<'_>,
    row: &Row,
    width: usize,
) -> Option<Joining>
    ensures { IfSome result (λ j. IsJoining places.now place.now row.now width j) }
{
    let Work::Names(naming) = &place.work else {
        return None;
    };
    let register = naming.register;
    let follows = place.instr.next();
    if follows == 0 || register < width || row.width() <= register {
        return None;
    }
    let Some(merging) = places.get(follows - 1) else {
        return None;
    };
    let Work::Name(variable, held) = &merging.work else {
        return None;
    };
    if *held != register || *variable >= width {
        return None;
    }
    let next = merging.instr.next();
    Some(Joining {
        variable: *variable,
        register,
        next,
    })
}

/// The triple pattern that follows a variable merged with the names of graphs, if what it makes of the row in each graph is found by one
/// scan.
fn pattern_joined<'w>(places: &'w [Place<'_>], joining: Joining, row: &Row) -> Option<Each<'w>>
    ensures { IfSome result (λ e. IsJoined places.now joining e) }
{
    if joining.next == 0 {
        return None;
    }
    let Some(after) = places.get(joining.next - 1) else {
        return None;
    };
    let Some(pattern) = pattern_named(after, joining.register) else {
        return None;
    };
    if !misses(pattern, joining.variable) || !gives_number(pattern, row) {
        return None;
    }
    let next = after.instr.next();
    Some(Each {
        register: joining.register,
        pattern,
        next,
    })
}

/// What follows the names of graphs, for a row.
#[derive(Clone, Copy)]
pub(crate) enum AfterNames<'w> {
    /// A variable that is merged with the names, which the row binds to this cell.
    Given(Joining, Cell),
    /// A variable that is merged with the names, which the row doesn't bind, and a triple pattern in each graph.
    Joined(Joining, Each<'w>),
    /// A triple pattern in each graph.
    InEach(Each<'w>),
    /// Anything else: the names are taken one by one.
    ByName,
}

/// What follows the place, for the row.
pub(crate) fn after_names<'w>(
    places: &'w [Place<'_>],
    place: &Place<'_>,
    row: &Row,
    width: usize,
) -> AfterNames<'w>
    ensures { IsAfterNames places.now place.now row.now width result }
{
    let Some(joining) = joining_after(places, place, row, width) else {
        return match pattern_in_each(places, place, row) {
            Some(each) => AfterNames::InEach(each),
            None => AfterNames::ByName,
        };
    };
    if let Some(cell) = row.cell(joining.variable) {
        return AfterNames::Given(joining, cell);
    }
    match pattern_joined(places, joining, row) {
        Some(each) => AfterNames::Joined(joining, each),
        None => AfterNames::ByName,
    }
}
