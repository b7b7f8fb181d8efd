//! The rows in which a search works, and what it does to one cell.
ghost use Rattle.std.specs.Prelude.{◌≡◌, ◌<◌, true, length, Some, IsSome, slice_set};
ghost use Rattle.subject.specs.Problems.{kind_of};
ghost use Rattle.subject.specs.Queues.{IsPut};
ghost use Rattle.search.specs.Rows.{QueueAgrees, OfferOutcome, SettleOutcome, improves, reached_in, done_in};
ghost use Rattle.search.specs.declared.cell.Cell.TheVariants.{Waiting};
ghost use Rattle.search.specs.Columns.{cells_of, SameIndex};

use search::cell::{Cell, CellRow, Reached};
use subject::charge::Charge;
use subject::queue::PriorityQueue;

/// Cell rows and a queue. What holds of them between two steps of a search is said by clauses, since it depends on the query.
#[derive(Drop)]
pub struct Workspace<'c, 'q, C, Q> {
    pub cells: &'c mut [CellRow<C>],
    pub queue: &'q mut Q,
}

/// A settled cell, and how it was reached.
#[derive(Clone, Copy)]
pub struct Settled<C> {
    pub at: usize,
    pub here: Reached<C>,
}

/// How the cell `at` was reached.
pub fn reached_at<C: Charge>(cells: &[CellRow<C>], at: usize) -> Reached<C>
    requires { IsSome (reached_in (cells_of cells.now) at) }
    ensures { reached_in (cells_of cells.now) at ≡ Some result }
{
    cells[at].cell.reached().unwrap()
}

// Whether a cell is to be reached anew with this charge: it was never reached, or waits with more.
fn is_better<C: Charge>(old: Cell<C>, charge: C) -> bool
    ensures { result ≡ improves (kind_of C.Charge) old charge }
{
    match old {
        Cell::Unseen => true,
        Cell::Waiting(reached) => !reached.charge.no_more(&charge),
        Cell::Settled(_) => false,
    }
}

impl<C: Charge, Q: PriorityQueue<Charge = C>> Workspace<'_, '_, C, Q> {
    ghost use Rattle.planner.specs.Workspaces.{SameWorkspace};

    /// Lets the cell `at` wait as reached by `new`, in its row and in the queue.
    pub fn wait(&mut self, at: usize, new: Reached<C>)
        requires inside { at < length self.old.cells.now }
        requires room { at < Q.PriorityQueue.rows self.old.queue.now }
        requires ordered { Q.PriorityQueue.is_ordered self.old.queue.now }
        ensures ordered { Q.PriorityQueue.is_ordered self.new.queue.now }
        ensures same { SameWorkspace Q.PriorityQueue self.old self.new }
        ensures index { SameIndex self.old.cells.now self.new.cells.now }
        ensures cells { cells_of self.new.cells.now ≡ slice_set (cells_of self.old.cells.now) at (Waiting new) }
        ensures put { IsPut (Q.PriorityQueue.waits self.old.queue.now) (Q.PriorityQueue.waits self.new.queue.now) at new.charge }
    {
        self.cells[at].cell = Cell::Waiting(new);
        let _ = self.queue.put(at, new.charge);
    }

    /// Offers the cell `at`: it waits as reached by `new`, unless it is settled or waits with no more.
    pub fn offer(&mut self, at: usize, new: Reached<C>)
        requires inside { at < length self.old.cells.now }
        requires room { at < Q.PriorityQueue.rows self.old.queue.now }
        requires ordered { Q.PriorityQueue.is_ordered self.old.queue.now }
        requires agree { QueueAgrees (cells_of self.old.cells.now) (Q.PriorityQueue.waits self.old.queue.now) }
        requires low { (e : C) → done_in (cells_of self.old.cells.now) at ≡ Some e → C.Charge.no_more e new.charge ≡ true }
        ensures ordered { Q.PriorityQueue.is_ordered self.new.queue.now }
        ensures same { SameWorkspace Q.PriorityQueue self.old self.new }
        ensures index { SameIndex self.old.cells.now self.new.cells.now }
        ensures offered { OfferOutcome (kind_of C.Charge) (cells_of self.old.cells.now) (cells_of self.new.cells.now)
            (Q.PriorityQueue.waits self.old.queue.now) (Q.PriorityQueue.waits self.new.queue.now) at new }
    {
        if is_better(self.cells[at].cell, new.charge) {
            self.wait(at, new);
        }
    }
}

/// Settles the cell `at` as it was reached, and answers how that was.
pub fn settle<C: Charge>(cells: &mut [CellRow<C>], at: usize) -> Reached<C>
    requires inside { at < length cells.old }
    requires reached { IsSome (reached_in (cells_of cells.old) at) }
    ensures index { SameIndex cells.old cells.new }
    ensures settling { SettleOutcome (cells_of cells.old) (cells_of cells.new) at result }
{
    let here = reached_at(cells, at);
    cells[at].cell = Cell::Settled(here);
    here
}

/// Lets the row of the place `at` hint at a cell.
pub fn set_hint<C>(cells: &mut [CellRow<C>], at: usize, hint: usize)
    requires { at < length cells.old }
    ensures cells { cells_of cells.new ≡ cells_of cells.old }
    ensures index { SameIndex cells.old cells.new }
{
    cells[at].hint = u32::try_from(hint).ok();
}
