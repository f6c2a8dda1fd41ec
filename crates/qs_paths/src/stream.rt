//! The pairs of a path over a view, one by one.

ghost use Rattle.std.specs.Prelude.{◌≡◌, map, IfOk, IfSome, IsErr};
ghost use Rattle.qs_paths.specs.inner.Coming.{AreAll, GivesPair};
ghost use Rattle.qs_paths.specs.inner.Nodes.{cell_of, node_cells};
ghost use Rattle.qs_paths.specs.inner.Seen.{graph_in, known_in};
ghost use Rattle.qs_paths.specs.inner.State.{GivesStep, HasFailedIn, turned_cells};

use crate::node::{NodePair, cell_of};
use crate::seen::Seen;
use crate::state::{Request, State, next_found, next_of_state, rest_of, start_of};
use crate::stretch::turned;
use qs_expr::Cell;
use qs_store::View;
use qs_terms::QFault;
use std::alloc::{AllocError, Global};

/// The pairs of a path that are still to come. It holds what a closure has seen, or the pairs where they were found whole.
#[derive(Drop)]
pub struct Pairs<'a, V: View> {
    pub(crate) alloc: Global,
    pub(crate) edges: Seen<'a, V>,
    pub(crate) request: Option<Request<'a>>,
    pub(crate) turned: bool,
    pub(crate) state: State<'a>,
}

/// The next pair, which is turned where the state says so.
fn step<'a, V: View>(
    alloc: Global,
    edges: &Seen<'a, V>,
    request: &mut Option<Request<'a>>,
    is_turned: &mut bool,
    state: &mut State<'a>,
) -> Result<Option<NodePair>, AllocError>
    ensures gives { IfOk result
        (λ o. GivesStep (known_in V.content edges.now) (graph_in V.content V.default_seen edges.now)
        request.old is_turned.old state.old o request.new is_turned.new state.new) }
    ensures failed { HasFailedIn request.old state.old → IsErr result }
{
    let Some(request) = request.take() else {
        return next_of_state(alloc, edges, state);
    };
    let opened = start_of(alloc, edges, &request)?;
    *is_turned = opened.turned;
    *state = opened.state;
    next_of_state(alloc, edges, state)
}

/// The cells of pairs that were found, which are turned where the answer is to be.
fn all_cells(
    alloc: Global,
    pairs: &[NodePair],
    is_turned: bool,
) -> Result<Vec<(Cell, Cell)>, AllocError>
    ensures { IfOk result (λ cells. cells.items ≡ map (turned_cells is_turned) pairs.now) }
{
    pairs
        .iter()
        .map(|pair| cells_of(turned(*pair, is_turned)))
        .collect(alloc)
}

/// The cells of a pair.
#[inline(always)]
fn cells_of(pair: NodePair) -> (Cell, Cell)
    ensures left { result.0 ≡ cell_of pair.left }
    ensures right { result.1 ≡ cell_of pair.right }
    ensures both { result ≡ node_cells pair }
{
    (cell_of(pair.left), cell_of(pair.right))
}

impl<'a, V: View> Pairs<'a, V> {
    /// All pairs that are still to come, where they were found whole; none where they are found one by one, or nothing was asked yet.
    ///
    /// # Errors
    /// Out of memory.
    pub fn rest_found(&self) -> Result<Option<Vec<(Cell, Cell)>>, AllocError>
        ensures { IfOk result
            (λ o. IfSome o (λ cells. AreAll V.content V.default_seen self.now cells.items)) }
    {
        match (&self.request, &self.state) {
            (None, State::Whole(rows)) => {
                let rest = all_cells(self.alloc, rest_of(rows), self.turned)?;
                Ok(Some(rest))
            }
            _ => Ok(None),
        }
    }

    /// The next pair, wherever it is found. It is a function of its own, since a pair that was found before doesn't need it.
    #[inline(never)]
    fn find_next(&mut self) -> Option<Result<(Cell, Cell), QFault>>
        ensures { GivesPair V.content V.default_seen self.old result self.new }
    {
        let next = step(
            self.alloc,
            &self.edges,
            &mut self.request,
            &mut self.turned,
            &mut self.state,
        );
        let Ok(answer) = next else {
            self.request = None;
            self.state = State::Failed;
            return Some(Err(QFault::Memory));
        };
        let pair = answer?;
        Some(Ok(cells_of(turned(pair, self.turned))))
    }
}

impl<'a, V: View> Iterator for Pairs<'a, V> {
    type Item = Result<(Cell, Cell), QFault>;

    ghost next_gives = { GivesPair V.content V.default_seen };

    /// The next pair, or none where there is none left.
    ///
    /// # Errors
    ///
    /// `QFault::Memory` where memory runs out, now or at an earlier call; no other fault.
    fn next(&mut self) -> Option<Result<(Cell, Cell), QFault>> {
        match next_found(&self.request, &mut self.state) {
            Some(pair) => Some(Ok(cells_of(turned(pair, self.turned)))),
            None => self.find_next(),
        }
    }
}
