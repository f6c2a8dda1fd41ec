//! Updates.

ghost use Rattle.qs_syntax_resolve.specs.Pattern.{group_of};
ghost use Rattle.qs_syntax_resolve.specs.inner.Resolving.{Resolves, Collects};
ghost use Rattle.qs_syntax_resolve.specs.Update as spec;
ghost use Rattle.qs_syntax_resolve.specs.inner.Update as inner;
ghost use Rattle.qs_syntax_resolve.specs.inner.Templates.{templates};

use crate::resolver::Resolver;
use crate::reversed::reversed;
use qs_base::{drop_value, keep_beside};
use qs_syntax_ast::pattern::Group;
use qs_syntax_ast::update::{
    DeleteWhere, GraphOrDefault, GraphTarget, Modify, Operation, QuadBlock, Transfer, Update,
};
use qs_syntax_tree::pattern::Group as WrittenGroup;
use qs_syntax_tree::term::Iri as WrittenIri;
use qs_syntax_tree::update::{
    GraphOrDefault as WrittenEnd, GraphTarget as WrittenTarget, Modify as WrittenModify,
    Operation as WrittenOperation, QuadElement, QuadPattern, Quads, Transfer as WrittenTransfer,
    Update as WrittenUpdate, UpdateStep,
};
use qs_terms::{Iri, QFault};
use sqlite_items::Items;
use std::alloc::Global;

impl<'a> Resolver<'a> {
    fn block(&mut self, alloc: Global, quads: Quads) -> Result<QuadBlock, QFault>
        ensures { Resolves (spec.block quads self.old) result self.new }
    {
        match quads {
            Quads::Triples(triples) => {
                let triples = self.consumed_template(alloc, triples)?;
                Ok(QuadBlock {
                    graph: None,
                    triples,
                })
            }
            Quads::Graph(name, triples) => {
                let (triples, name) = keep_beside(triples, self.var_or_iri(name))?;
                let triples = self.consumed_template(alloc, triples)?;
                Ok(QuadBlock {
                    graph: Some(name),
                    triples,
                })
            }
        }
    }

    fn quads(&mut self, alloc: Global, all: Items<QuadElement>) -> Result<Items<QuadBlock>, QFault>
        ensures { Resolves (spec.quads all self.old) result self.new }
    {
        let mut rest = reversed(alloc, all)?;
        let mut found = Items::from_vec(Vec::with_capacity(alloc, rest.len())?);
        while let Some(element) = rest.pop() {
            let next = self.block(alloc, element.quads)?;
            found.push(next)?;
        }
        Ok(found)
    }

    fn optional_quads(
        &mut self,
        alloc: Global,
        quads: Option<QuadPattern>,
    ) -> Result<Items<QuadBlock>, QFault>
        ensures { Resolves (spec.template quads self.old) result self.new }
    {
        match quads {
            None => Ok(Items::new(alloc)),
            Some(quads) => self.quads(alloc, quads.elements),
        }
    }

    fn target(&mut self, target: WrittenTarget) -> Result<GraphTarget, QFault>
        ensures { Resolves (spec.target_of target self.old) result self.new }
    {
        match target {
            WrittenTarget::Graph(iri) => Ok(GraphTarget::Graph(self.iri(iri)?)),
            WrittenTarget::Default => Ok(GraphTarget::Default),
            WrittenTarget::Named => Ok(GraphTarget::Named),
            WrittenTarget::All => Ok(GraphTarget::All),
        }
    }

    fn end(&mut self, end: WrittenEnd) -> Result<GraphOrDefault, QFault>
        ensures { Resolves (spec.end_of end self.old) result self.new }
    {
        match end {
            WrittenEnd::Default => Ok(GraphOrDefault::Default),
            WrittenEnd::Graph(iri) => Ok(GraphOrDefault::Graph(self.iri(iri)?)),
        }
    }

    #[tactic(auto, unfolding(crate::specs::Update::transfer))]
    fn transfer(&mut self, transfer: WrittenTransfer) -> Result<Transfer, QFault>
        ensures { Resolves (spec.transfer transfer self.old) result self.new }
    {
        let from = self.end(transfer.from)?;
        let to = self.end(transfer.to)?;
        Ok(Transfer {
            on_missing: transfer.on_missing,
            from,
            to,
        })
    }

    fn with_graph(&mut self, iri: Option<WrittenIri>) -> Result<Option<Iri>, QFault>
        ensures { Resolves (inner.with_graph iri self.old) result self.new }
    {
        match iri {
            None => Ok(None),
            Some(iri) => Ok(Some(self.iri(iri)?)),
        }
    }

    #[tactic(auto, unfolding(crate::specs::inner::Templates::templates))]
    fn templates(
        &mut self,
        alloc: Global,
        with: Option<WrittenIri>,
        written: (Option<QuadPattern>, Option<QuadPattern>),
    ) -> Result<((Option<Iri>, Items<QuadBlock>), Items<QuadBlock>), QFault>
        ensures { Resolves (templates with written.0 written.1 self.old) result self.new }
    {
        let ((delete, insert), with) = keep_beside(written, self.with_graph(with))?;
        let rest = (with, insert);
        let ((with, insert), delete) = keep_beside(rest, self.optional_quads(alloc, delete))?;
        keep_beside((with, delete), self.optional_quads(alloc, insert))
    }

    fn consumed_group(&mut self, alloc: Global, pattern: WrittenGroup) -> Result<Group, QFault>
        ensures { Resolves (group_of pattern self.old) result self.new }
    {
        let group = self.group(alloc, &pattern);
        drop_value(pattern);
        group
    }

    #[tactic(auto, using(crate::proofs::Modifies::modify_is))]
    fn modify(&mut self, alloc: Global, modify: WrittenModify) -> Result<Modify, QFault>
        ensures { Resolves (spec.modify modify self.old) result self.new }
    {
        let count = self.variables.len();
        let WrittenModify {
            with,
            delete,
            insert,
            pattern,
        } = modify;
        let templates = self.templates(alloc, with, (delete, insert));
        let (pattern, templates) = keep_beside(pattern, templates)?;
        let parts = keep_beside(templates, self.consumed_group(alloc, pattern))?;
        let variables = self.variables_since(alloc, count);
        let ((((with, delete), insert), pattern), variables) = keep_beside(parts, variables)?;
        Ok(Modify {
            with,
            delete,
            insert,
            pattern,
            variables,
        })
    }

    #[tactic(auto, unfolding(crate::specs::Update::delete_where))]
    fn delete_where(&mut self, alloc: Global, quads: QuadPattern) -> Result<DeleteWhere, QFault>
        ensures { Resolves (spec.delete_where quads self.old) result self.new }
    {
        let count = self.variables.len();
        let quads = self.quads(alloc, quads.elements)?;
        let (quads, variables) = keep_beside(quads, self.variables_since(alloc, count))?;
        Ok(DeleteWhere { quads, variables })
    }

    #[tactic(auto, unfolding(crate::specs::Update::operation_of))]
    fn operation(&mut self, alloc: Global, operation: WrittenOperation) -> Result<Operation, QFault>
        ensures { Resolves (spec.operation_of operation self.old) result self.new }
    {
        match operation {
            WrittenOperation::InsertData(quads) => match self.quads(alloc, quads.elements) {
                Ok(found) => Ok(Operation::InsertData(found)),
                Err(fault) => Err(fault),
            },
            WrittenOperation::DeleteData(quads) => match self.quads(alloc, quads.elements) {
                Ok(found) => Ok(Operation::DeleteData(found)),
                Err(fault) => Err(fault),
            },
            WrittenOperation::DeleteWhere(quads) => match self.delete_where(alloc, quads) {
                Ok(found) => Ok(Operation::DeleteWhere(found)),
                Err(fault) => Err(fault),
            },
            WrittenOperation::Modify(modify) => match self.modify(alloc, modify) {
                Ok(found) => Ok(Operation::Modify(found)),
                Err(fault) => Err(fault),
            },
            WrittenOperation::Clear(silent, target) => match self.target(target) {
                Ok(found) => Ok(Operation::Clear(silent, found)),
                Err(fault) => Err(fault),
            },
            WrittenOperation::Drop(silent, target) => match self.target(target) {
                Ok(found) => Ok(Operation::Drop(silent, found)),
                Err(fault) => Err(fault),
            },
            WrittenOperation::Create(silent, iri) => match self.iri(iri) {
                Ok(found) => Ok(Operation::Create(silent, found)),
                Err(fault) => Err(fault),
            },
            WrittenOperation::Add(transfer) => match self.transfer(transfer) {
                Ok(found) => Ok(Operation::Add(found)),
                Err(fault) => Err(fault),
            },
            WrittenOperation::Move(transfer) => match self.transfer(transfer) {
                Ok(found) => Ok(Operation::Move(found)),
                Err(fault) => Err(fault),
            },
            WrittenOperation::Copy(transfer) => match self.transfer(transfer) {
                Ok(found) => Ok(Operation::Copy(found)),
                Err(fault) => Err(fault),
            },
        }
    }

    fn operation_after(
        &mut self,
        alloc: Global,
        found: &mut Items<Operation>,
        operation: Option<WrittenOperation>,
    ) -> Result<(), QFault>
        ensures { Collects (spec.operation_after found.old operation self.old) result found.new
            self.new }
    {
        match operation {
            None => Ok(()),
            Some(operation) => {
                let operation = self.operation(alloc, operation)?;
                Ok(found.push(operation)?)
            }
        }
    }

    #[tactic(auto, unfolding(crate::specs::Update::step))]
    fn step(
        &mut self,
        alloc: Global,
        found: &mut Items<Operation>,
        step: UpdateStep,
    ) -> Result<(), QFault>
        ensures { Collects (spec.step found.old step self.old) result found.new self.new }
    {
        let UpdateStep {
            prologue,
            operation,
        } = step;
        let (operation, _done) = keep_beside(operation, self.prologue(prologue.as_slice()))?;
        self.operation_after(alloc, found, operation)
    }

    fn steps(
        &mut self,
        alloc: Global,
        found: &mut Items<Operation>,
        all: Items<UpdateStep>,
    ) -> Result<(), QFault>
        ensures { Collects (inner.steps found.old all self.old) result found.new self.new }
    {
        let mut rest = reversed(alloc, all)?;
        while let Some(step) = rest.pop() {
            self.step(alloc, found, step)?;
        }
        Ok(())
    }

    /// The operations of an update. Each part of the tree is dropped once it is resolved, so that
    /// what is resolved next is put into its memory.
    #[tactic(auto, unfolding(crate::specs::Update::update))]
    pub fn update(&mut self, alloc: Global, update: WrittenUpdate) -> Result<Update, QFault>
        ensures { Resolves (spec.update update self.old) result self.new }
    {
        let WrittenUpdate { steps } = update;
        let room = Vec::with_capacity(alloc, steps.len());
        let (steps, room) = keep_beside(steps, room)?;
        let mut operations = Items::from_vec(room);
        self.steps(alloc, &mut operations, steps)?;
        Ok(Update { operations })
    }
}
