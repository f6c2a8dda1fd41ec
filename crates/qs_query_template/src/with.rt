//! Templates under WITH (SPARQL 1.1 Update, 3.1.3).

ghost use Rattle.std.specs.Prelude.{◌≡◌, map, IfOk};
ghost use Rattle.std.specs.Option.{unwrap_or};
ghost use Rattle.qs_query_template.specs.Template as spec;

use crate::template::{QuadTemplate, Slot, Template, iri_slot};
use qs_terms::Iri;
use sqlite_items::Items;
use std::alloc::{AllocError, Global};

fn graph_or(graph: &Option<Slot>, name: &Slot) -> Result<Slot, AllocError>
    ensures { IfOk result (λ g. g ≡ unwrap_or graph.now name.now) }
{
    match graph {
        None => name.share(),
        Some(graph) => graph.share(),
    }
}

fn quad_in(quad: &QuadTemplate, name: &Slot) -> Result<QuadTemplate, AllocError>
    ensures { IfOk result (λ q. q ≡ spec.quad_in name.now quad.now) }
{
    let graph = graph_or(&quad.graph, name)?;
    let subject = quad.subject.share()?;
    let predicate = quad.predicate.share()?;
    let object = quad.object.share()?;
    Ok(QuadTemplate {
        graph: Some(graph),
        subject,
        predicate,
        object,
    })
}

fn quads_in(
    alloc: Global,
    quads: &[QuadTemplate],
    name: &Slot,
) -> Result<Items<QuadTemplate>, AllocError>
    ensures { IfOk result (λ all. all ≡ map (spec.quad_in name.now) quads.now) }
{
    let mut all = Items::new(alloc);
    for quad in quads {
        let quad = quad_in(quad, name)?;
        all.push(quad)?;
    }
    Ok(all)
}

fn template_of_graph(
    alloc: Global,
    template: &Template,
    name: &Slot,
) -> Result<Template, AllocError>
    ensures { IfOk result
        (λ t. t
        ≡ record {
          quads = map (spec.quad_in name.now) template.now.quads;
          blanks = template.now.blanks;
        }) }
{
    let quads = quads_in(alloc, template.quads.as_slice(), name)?;
    Ok(Template {
        quads,
        blanks: template.blanks,
    })
}

/// The template, where its quads that name no graph stand in the graph of this name, if one is given. The terms of the quads aren't
/// copied.
pub fn template_in(
    alloc: Global,
    name: &Option<Iri>,
    template: Template,
) -> Result<Template, AllocError>
    ensures { IfOk result (λ t. t ≡ spec.template_in name.now template) }
{
    match name {
        None => Ok(template),
        Some(name) => {
            let name = iri_slot(alloc, name)?;
            template_of_graph(alloc, &template, &name)
        }
    }
}
