//! The entries of whole graphs of a draft, by the graphs' names.

ghost use Rattle.std.specs.Prelude.{◌≡◌, [], Some, length, IsTrue, IfOk, IfErr, IfSome, IfNone, OnOk, OnErr};
ghost use Rattle.std.specs.List.{filter};
ghost use Rattle.std.specs.Option.{option_copied};
ghost use Rattle.qs_terms.specs.inner.Dataset.{is_graph};
ghost use Rattle.qs_dict.specs.inner.Dict.{IsDictionary};
ghost use Rattle.qs_store.specs.Change.{IsChanged, with_terms_of};
ghost use Rattle.qs_store.specs.inner.Change.{IsFullAt};
ghost use Rattle.qs_store.specs.inner.Copied.{AreEntriesOf};
ghost use Rattle.qs_store.specs.inner.Entries.{said, graph_number, AreEntries};
ghost use Rattle.qs_store.specs.inner.Holding.{HasGraph};
ghost use Rattle.qs_store.specs.inner.Store.{IsFront};
ghost use Rattle.qs_store.specs.WholeGraphs.{copies, exists, in_graph, is_named, removed_by};

use crate::fault::StoreFault;
use crate::layers::Layers;
use crate::numbers::{graph_number, put_graph};
use crate::removal::Removal;
use qs_dict::Dict;
use qs_terms::Term;
use std::alloc::{AllocError, Global};

/// The number of the graph's name, where quads of the draft are in it.
pub fn filled(dict: &Dict, layers: &Layers, name: Option<&Term>) -> Option<u32>
    requires { AreEntries dict.now.terms layers.now.draft }
    ensures number { IfSome result (λ n. graph_number dict.now.terms (option_copied name.entry)
        ≡ Some n) }
    ensures held { IfSome result (HasGraph layers.now.draft) }
    ensures lawful { IsDictionary dict.now }
    ensures empty { IfNone result
        (in_graph (option_copied name.entry) (said dict.now.terms layers.now.draft) ≡ []) }
{
    let _count = dict.len();
    let graph = graph_number(dict, name)?;
    if layers.draft_holds(graph) {
        Some(graph)
    } else {
        None
    }
}

/// The entries of the quads in a graph.
fn entries_in(
    alloc: Global,
    dict: &Dict,
    layers: &Layers,
    name: Option<&Term>,
) -> Result<Vec<[u32; 4]>, AllocError>
    requires { AreEntries dict.now.terms layers.now.draft }
    ensures { IfOk result
        (λ found. AreEntriesOf dict.now.terms
        (in_graph (option_copied name.entry) (said dict.now.terms layers.now.draft))
        found.items) }
{
    let _count = dict.len();
    match graph_number(dict, name) {
        None => Ok(Vec::new(alloc)),
        Some(graph) => layers.draft_copies(graph, graph),
    }
}

/// The entries of the quads in named graphs.
pub fn entries_named(dict: &Dict, layers: &Layers) -> Result<Vec<[u32; 4]>, AllocError>
    requires { AreEntries dict.now.terms layers.now.draft }
    ensures { IfOk result
        (λ found. AreEntriesOf dict.now.terms
        (filter is_named (said dict.now.terms layers.now.draft)) found.items) }
{
    let _count = dict.len();
    layers.draft_named()
}

/// The entries of the quads that are removed before those of a graph are put into another one.
fn entries_removed(
    alloc: Global,
    dict: &Dict,
    layers: &Layers,
    removal: Removal,
    from: Option<&Term>,
    to: Option<&Term>,
) -> Result<Vec<[u32; 4]>, AllocError>
    requires { AreEntries dict.now.terms layers.now.draft }
    ensures { IfOk result
        (λ found. AreEntriesOf dict.now.terms
        (removed_by removal (option_copied from.entry) (option_copied to.entry)
        (said dict.now.terms layers.now.draft)) found.items) }
{
    match removal {
        Removal::Nothing => Ok(Vec::new(alloc)),
        Removal::Target => entries_in(alloc, dict, layers, to),
        Removal::Both => {
            let mut found = entries_in(alloc, dict, layers, to)?;
            let mut more = entries_in(alloc, dict, layers, from)?;
            found.append(&mut more)?;
            Ok(found)
        }
    }
}

/// The entries of the quads in a graph, put into another one. The name of that one is put after the other terms in the dictionary where
/// there are such quads and it is new.
fn entries_copied(
    alloc: Global,
    dict: &mut Dict,
    layers: &Layers,
    from: Option<&Term>,
    to: Option<&Term>,
) -> Result<Vec<[u32; 4]>, StoreFault>
    requires known { AreEntries dict.old.terms layers.now.draft }
    requires lawful { IsTrue (is_graph (option_copied to)) }
    ensures entries { IfOk result
        (λ found. AreEntriesOf dict.new.terms
        (copies (option_copied from.entry) (option_copied to.entry)
        (said dict.old.terms layers.now.draft)) found.items) }
    ensures terms { OnOk result
        (dict.new.terms ≡ with_terms_of dict.old.terms
        (copies (option_copied from.entry) (option_copied to.entry)
        (said dict.old.terms layers.now.draft))) }
    ensures full { IfErr result
        (λ fault. IsFullAt fault dict.old.limit
        (length
        (with_terms_of dict.old.terms
        (copies (option_copied from.entry) (option_copied to.entry)
        (said dict.old.terms layers.now.draft))))) }
    ensures front { IsFront dict.old.terms dict.new.terms }
    ensures limit { dict.new.limit ≡ dict.old.limit }
{
    let Some(from) = filled(dict, layers, from) else {
        return Ok(Vec::new(alloc));
    };
    let to = put_graph(dict, to)?;
    let _count = dict.len();
    Ok(layers.draft_copies(from, to)?)
}

/// Notes a graph whose quads were removed.
fn note(dict: &Dict, layers: &mut Layers, name: Option<&Term>)
    ensures base { layers.new.base ≡ layers.old.base }
    ensures draft { layers.new.draft ≡ layers.old.draft }
{
    if let Some(graph) = graph_number(dict, name) {
        layers.note(graph);
    }
}

/// Notes the graphs whose quads were removed before those of a graph were put into another one.
fn note_removed(
    dict: &Dict,
    layers: &mut Layers,
    removal: Removal,
    from: Option<&Term>,
    to: Option<&Term>,
)
    ensures base { layers.new.base ≡ layers.old.base }
    ensures draft { layers.new.draft ≡ layers.old.draft }
{
    match removal {
        Removal::Nothing => {}
        Removal::Target => note(dict, layers, to),
        Removal::Both => {
            note(dict, layers, to);
            note(dict, layers, from);
        }
    }
}

/// Puts the quads of a graph into another one, where those of `removal` are removed before. Where it is refused the draft's entries stay,
/// and the dictionary may have a term after those that it had.
pub fn transfer(
    alloc: Global,
    dict: &mut Dict,
    layers: &mut Layers,
    removal: Removal,
    from: Option<&Term>,
    to: Option<&Term>,
) -> Result<(), StoreFault>
    requires known { AreEntries dict.old.terms layers.old.draft }
    requires lawful { IsTrue (is_graph (option_copied to)) }
    ensures quads { OnOk result
        (IsChanged (said dict.old.terms layers.old.draft)
        (removed_by removal (option_copied from.entry) (option_copied to.entry)
        (said dict.old.terms layers.old.draft))
        (copies (option_copied from.entry) (option_copied to.entry)
        (said dict.old.terms layers.old.draft)) (said dict.new.terms layers.new.draft)) }
    ensures terms { OnOk result
        (dict.new.terms ≡ with_terms_of dict.old.terms
        (copies (option_copied from.entry) (option_copied to.entry)
        (said dict.old.terms layers.old.draft))) }
    ensures entries { OnOk result (AreEntries dict.new.terms layers.new.draft) }
    ensures lawful { OnOk result (IsDictionary dict.new) }
    ensures full { IfErr result
        (λ fault. IsFullAt fault dict.old.limit
        (length
        (with_terms_of dict.old.terms
        (copies (option_copied from.entry) (option_copied to.entry)
        (said dict.old.terms layers.old.draft))))) }
    ensures refused { OnErr result (layers.new.draft ≡ layers.old.draft) }
    ensures front { IsFront dict.old.terms dict.new.terms }
    ensures limit { dict.new.limit ≡ dict.old.limit }
    ensures base { layers.new.base ≡ layers.old.base }
{
    let mut ins = entries_copied(alloc, dict, layers, from, to)?;
    let _count = dict.len();
    let mut outs = entries_removed(alloc, dict, layers, removal, from, to)?;
    layers.change(outs.as_mut_slice(), ins.as_mut_slice())?;
    note_removed(dict, layers, removal, from, to);
    Ok(())
}

/// Takes entries out of the draft, and leaves them in some order. Where it is refused the draft's entries stay.
pub fn remove(dict: &Dict, layers: &mut Layers, outs: &mut [[u32; 4]]) -> Result<(), AllocError>
    requires known { AreEntries dict.now.terms layers.old.draft }
    requires outs { AreEntries dict.now.terms outs.old }
    ensures quads { OnOk result
        (IsChanged (said dict.now.terms layers.old.draft) (said dict.now.terms outs.old) []
        (said dict.now.terms layers.new.draft)) }
    ensures entries { OnOk result (AreEntries dict.now.terms layers.new.draft) }
    ensures lawful { IsDictionary dict.now }
    ensures refused { OnErr result (layers.new.draft ≡ layers.old.draft) }
    ensures base { layers.new.base ≡ layers.old.base }
{
    let _count = dict.len();
    layers.change(outs, &mut [])
}

/// Takes the entries of the quads in a graph out of the draft. Where it is refused the draft's entries stay.
pub fn clear(dict: &Dict, layers: &mut Layers, name: Option<&Term>) -> Result<(), AllocError>
    requires { AreEntries dict.now.terms layers.old.draft }
    ensures quads { OnOk result
        (IsChanged (said dict.now.terms layers.old.draft)
        (in_graph (option_copied name.entry) (said dict.now.terms layers.old.draft)) []
        (said dict.now.terms layers.new.draft)) }
    ensures entries { OnOk result (AreEntries dict.now.terms layers.new.draft) }
    ensures lawful { IsDictionary dict.now }
    ensures refused { OnErr result (layers.new.draft ≡ layers.old.draft) }
    ensures base { layers.new.base ≡ layers.old.base }
{
    let _count = dict.len();
    let Some(graph) = graph_number(dict, name) else {
        return Ok(());
    };
    layers.clear_graph(graph)?;
    layers.note(graph);
    Ok(())
}
