//! The templates of an update (SPARQL 1.1 Update, 3.1.3).

ghost use Rattle.std.specs.Prelude.{◌≡◌, IfOk};
ghost use Rattle.qs_query_template.specs.Template as made;
ghost use Rattle.qs_update.specs.inner.Effect as spec;

use qs_query_template::{Template, template_in, template_of_blocks};
use qs_syntax_ast::update::QuadBlock;
use qs_syntax_scope::NameList;
use qs_terms::Iri;
use std::alloc::{AllocError, Global};

/// The template of quads that are removed, which takes no fresh blank nodes.
pub fn deletion(template: Template) -> Template
    ensures { result ≡ spec.deletion template }
{
    Template {
        quads: template.quads,
        blanks: 0,
    }
}

/// The template of the blocks, where the graph of WITH is the default graph.
pub fn template_with<'a>(
    alloc: Global,
    names: &NameList<'a>,
    with: &Option<Iri>,
    blocks: &'a [QuadBlock],
) -> Result<Template, AllocError>
    ensures { IfOk result
        (λ t. t ≡ made.template_in with.now (made.template_of_blocks names.now blocks.now)) }
{
    let template = template_of_blocks(alloc, names, blocks)?;
    template_in(alloc, with, template)
}
