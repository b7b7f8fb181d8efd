// A cell that is too low or too high goes to its position, by exchanges along the tree.
ghost use Rattle.std.specs.Prelude.{◌≡◌, ◌<◌, length, slice_set};
ghost use Rattle.tree_queue.specs.Rows.{charges, cells, positions};
ghost use Rattle.tree_queue.specs.Queues.{row_count, charge_at, rank, SameCharges, SameWaiting, IsExchanged};
ghost use Rattle.tree_queue.specs.Queues.{IsInOrder, IsRisingAt, IsSinkingAt, IsForemostBelow};

use crate::layout::Layout;
use crate::queue::TreeQueue;
use crate::row::QueueRow;
use subject::charge::Charge;

// The cell `cell` is at the position `at`.
#[tactic(auto, using(crate::proofs::Columns::columns))]
fn place<C: Charge>(rows: &mut [QueueRow<C>], cell: usize, at: usize)
    requires cell { cell < length rows.old }
    requires at { at < length rows.old }
    ensures charges { charges rows.new ≡ charges rows.old }
    ensures cells { cells rows.new ≡ slice_set (cells rows.old) at cell }
    ensures positions { positions rows.new ≡ slice_set (positions rows.old) cell at }
{
    rows[at].cell = cell;
    rows[cell].position = at;
}

impl<C: Charge, L: Layout> TreeQueue<'_, C, L> {
    // Whether the cell at the position `i` may be above the cell at `j`.
    #[tactic(auto, using(crate::proofs::Columns::on_rows))]
    fn is_ahead(&self, i: usize, j: usize) -> bool
        requires i { i < row_count self.now }
        requires j { j < row_count self.now }
        ensures { (d : C) → result ≡ rank L.Layout C.Charge (charge_at self.now i d) (charge_at self.now j d) }
    {
        let rows = &*self.rows;
        let a = rows[i].cell;
        let b = rows[j].cell;
        L::may_be_above(&rows[a].charge, &rows[b].charge)
    }

    // The cells at the positions `i` and `j` change positions.
    #[tactic(auto, using(crate::proofs::Columns::on_rows))]
    pub(crate) fn exchange(&mut self, i: usize, j: usize)
        requires i { i < row_count self.old }
        requires j { j < row_count self.old }
        ensures same { SameCharges self.old self.new }
        ensures exchange { IsExchanged self.old self.new i j }
    {
        let rows = &mut *self.rows;
        let a = rows[i].cell;
        let b = rows[j].cell;
        place(rows, b, i);
        place(rows, a, j);
    }

    // The cell at the position `at` goes up as far as it belongs.
    pub(crate) fn sift_up(&mut self, at: usize)
        requires waits { at < self.old.len }
        requires rising { IsRisingAt L.Layout C.Charge self.old at }
        ensures order { IsInOrder L.Layout C.Charge self.new }
        ensures same { SameWaiting self.old self.new }
    {
        let mut i = at;
        while i > 0 {
            let up = L::parent(i);
            if self.is_ahead(up, i) {
                return;
            }
            self.exchange(up, i);
            i = up;
        }
    }

    // Of the positions right below `i`, which begin with `first`, that whose cell may be above the others.
    fn foremost(&self, i: usize, first: usize) -> usize
        requires first { first ≡ L.Layout.first_child i }
        requires waits { first < self.now.len }
        ensures { IsForemostBelow L.Layout C.Charge self.now i result }
    {
        let len = self.len;
        let next = first + 1;
        if next >= len {
            return first;
        }
        let above = L::parent(next);
        if above != i {
            return first;
        }
        if self.is_ahead(first, next) {
            return first;
        }
        next
    }

    // The cell at the position `at` goes down as far as it belongs.
    pub(crate) fn sift_down(&mut self, at: usize)
        requires { IsSinkingAt L.Layout C.Charge self.old at }
        ensures order { IsInOrder L.Layout C.Charge self.new }
        ensures same { SameWaiting self.old self.new }
    {
        let mut i = at;
        while let Some(first) = L::first_child(i, self.len) {
            let low = self.foremost(i, first);
            if self.is_ahead(i, low) {
                return;
            }
            self.exchange(i, low);
            i = low;
        }
    }
}
