ghost use Rattle.std.specs.Prelude.{◌≡◌, ℕ, ◌<◌, ◌≤◌, [], ◌∷◌, length, slice_index, IfNone, IfSome};
ghost use Rattle.subject.specs.Queues.{IsPut, NoneWaits, SameRows};
ghost use Rattle.tree_queue.specs.Rows.{charges, cells, positions};
ghost use Rattle.tree_queue.specs.Order.{IsPlacement, IsOwnPlacement};

use crate::layout::Layout;
use crate::row::QueueRow;
use crate::take_lowest::TakeLowest;
use std::marker::PhantomData;
use subject::charge::Charge;
use subject::queue::PriorityQueue;
use subject::refusal::Refusal;

/// A priority queue over lent rows, for every charge kind and every layout.
///
/// The cells at the first positions wait, in the order of the layout.
// That order is a premise of the calls and no ghost field, since it does not hold inside of them.
#[derive(Drop)]
pub struct TreeQueue<'a, C, L> {
    pub(crate) rows: &'a mut [QueueRow<C>],
    pub(crate) len: usize,
    layout: PhantomData<L>,
    // each cell is at one position
    ghost placement: { IsPlacement (length rows.now) (cells rows.now) (positions rows.now) },
    // no more cells wait than there are rows
    ghost len_in_rows: { len ≤ length rows.now },
}

// Each cell goes to the position of its own number, whatever the rows held; the charges stay.
#[tactic(auto, using(crate::proofs::Entry::own_numbers))]
fn set_out<C: Charge>(rows: &mut [QueueRow<C>])
    ensures charges { charges rows.new ≡ charges rows.old }
    ensures own { IsOwnPlacement (length rows.old) (cells rows.new) (positions rows.new) }
    ensures placement { IsPlacement (length rows.old) (cells rows.new) (positions rows.new) }
{
    for (i, row) in rows.iter_mut().enumerate() {
        row.cell = i;
        row.position = i;
    }
}

impl<'a, C: Charge, L: Layout> TreeQueue<'a, C, L> {
    ghost use Rattle.tree_queue.specs.Queues.{row_count, row_lenders, what_waits, IsInOrder};

    /// A queue in which no cell waits, whatever the rows held.
    pub fn over(rows: &'a mut [QueueRow<C>]) -> TreeQueue<'a, C, L>
        ensures order { IsInOrder L.Layout C.Charge result }
        ensures row_count { row_count result ≡ length rows.old }
        ensures lenders { row_lenders result ≡ rows.entry.ghost_name ∷ [] }
        ensures empty { NoneWaits (what_waits result) }
    {
        set_out(rows);
        TreeQueue {
            rows,
            len: 0,
            layout: PhantomData,
        }
    }
}

impl<C: Charge, L: Layout> TreeQueue<'_, C, L> {
    ghost use Rattle.std.specs.Prelude.{◌-◌};
    ghost use Rattle.tree_queue.specs.Queues.{row_count, row_lenders, what_waits, rank};
    ghost use Rattle.tree_queue.specs.Queues.{IsInOrder, IsCharged, IsStanding, IsTakenFrom, IsLastTaken};

    // `cell` has another charge, and is where it was.
    #[tactic(auto, using(crate::proofs::Columns::columns))]
    fn set_charge(&mut self, cell: usize, charge: C)
        requires { cell < row_count self.old }
        ensures { IsCharged self.old self.new cell charge }
    {
        self.rows[cell].charge = charge;
    }

    // `cell`, which does not wait, waits with `charge`: it goes behind those that wait, and up from there.
    fn enter(&mut self, cell: usize, charge: C)
        requires order { IsInOrder L.Layout C.Charge self.old }
        requires cell { cell < row_count self.old }
        requires apart { self.old.len ≤ slice_index (positions self.old.rows.now) cell }
        ensures order { IsInOrder L.Layout C.Charge self.new }
        ensures same { SameRows row_count row_lenders self.old self.new }
        ensures put { IsPut (what_waits self.old) (what_waits self.new) cell charge }
    {
        let at = self.rows[cell].position;
        let last = self.len;
        self.set_charge(cell, charge);
        self.exchange(at, last);
        self.len = last + 1;
        self.sift_up(last);
    }

    // `cell`, which waits, gets another charge, and goes up or down.
    fn recharge(&mut self, cell: usize, charge: C)
        requires order { IsInOrder L.Layout C.Charge self.old }
        requires cell { cell < row_count self.old }
        requires waits { slice_index (positions self.old.rows.now) cell < self.old.len }
        ensures order { IsInOrder L.Layout C.Charge self.new }
        ensures same { SameRows row_count row_lenders self.old self.new }
        ensures put { IsPut (what_waits self.old) (what_waits self.new) cell charge }
    {
        let old = self.rows[cell].charge;
        let at = self.rows[cell].position;
        self.set_charge(cell, charge);
        if L::may_be_above(&charge, &old) {
            self.sift_up(at);
        } else {
            self.sift_down(at);
        }
    }

    /// The cell at a position, with its charge, and nothing changes; none where there is no such position.
    ///
    /// The cells at the first positions wait, and the one at position 0 is on top.
    #[tactic(auto, using(crate::proofs::Columns::reads))]
    pub fn standing(&self, position: usize) -> Option<(usize, C)>
        ensures none { IfNone result (row_count self.now ≤ position) }
        ensures some { IfSome result (λ p. IsStanding self.now position p.0 p.1) }
    {
        if position >= self.rows.len() {
            return None;
        }
        let cell = self.rows[position].cell;
        Some((cell, self.rows[cell].charge))
    }

    /// The cell on top leaves with its charge; none where no cell waits, and nothing changes.
    ///
    /// A layout of one's own takes its lowest cell by this call or by `take_last`.
    #[tactic(auto, using(crate::proofs::Columns::on_rows))]
    pub fn take_top(&mut self) -> Option<(usize, C)>
        requires { IsInOrder L.Layout C.Charge self.old }
        ensures order { IsInOrder L.Layout C.Charge self.new }
        ensures same { SameRows row_count row_lenders self.old self.new }
        ensures none { IfNone result ((self.old.len ≡ 0) × (self.new ≡ self.old)) }
        ensures one_less { IfSome result (λ _. (0 < self.old.len) × (self.new.len ≡ self.old.len - 1)) }
        ensures inside { IfSome result (λ p. p.0 < row_count self.old) }
        ensures some { IfSome result (IsTakenFrom (rank L.Layout C.Charge) self.old self.new) }
    {
        let last = self.len.checked_sub(1)?;
        let cell = self.rows[0].cell;
        let charge = self.rows[cell].charge;
        self.exchange(0, last);
        self.len = last;
        self.sift_down(0);
        Some((cell, charge))
    }

    /// The last cell that waits leaves with its charge, and the rows stay as they are; none where no cell waits.
    #[tactic(auto, using(crate::proofs::Columns::reads))]
    pub fn take_last(&mut self) -> Option<(usize, C)>
        ensures none { IfNone result ((self.old.len ≡ 0) × (self.new ≡ self.old)) }
        ensures some { IfSome result (λ p. IsLastTaken self.old self.new p.0 p.1) }
    {
        self.len = self.len.checked_sub(1)?;
        let cell = self.rows[self.len].cell;
        Some((cell, self.rows[cell].charge))
    }
}

impl<C: Charge, L: TakeLowest> PriorityQueue for TreeQueue<'_, C, L> {
    ghost use Rattle.tree_queue.specs.Queues.{row_count, row_lenders, what_waits, IsInOrder};

    type Charge = C;

    ghost waits = { what_waits };

    ghost is_ordered = { IsInOrder L.Layout C.Charge };

    ghost rows = { row_count };

    ghost lenders = { row_lenders };

    fn rows(&self) -> usize {
        self.rows.len()
    }

    fn clear(&mut self) {
        set_out(self.rows);
        self.len = 0;
    }

    // Inlined, since else the rows' address is read anew at each step of a climb.
    #[inline(always)]
    fn put(&mut self, cell: usize, charge: C) -> Result<(), Refusal> {
        if cell >= self.rows.len() {
            return Err(Refusal::NoSuchCell);
        }
        if self.rows[cell].position < self.len {
            self.recharge(cell, charge);
        } else {
            self.enter(cell, charge);
        }
        Ok(())
    }

    fn take(&mut self) -> Option<(usize, C)> {
        L::take_lowest(self)
    }
}
