ghost use Rattle.std.specs.Prelude.{◌≡◌, ◌<◌, IfNone, IfSome};
ghost use Rattle.subject.specs.Queues.{NoneWaits, SameRows};
ghost use Rattle.tree_queue.specs.Queues.{row_count, row_lenders, what_waits, IsInOrder, IsTakenFrom};

use crate::layout::Layout;
use crate::queue::TreeQueue;
use subject::charge::Charge;

/// How a queue of a layout takes a cell with a lowest charge: at the top of the tree, or at its end.
pub trait TakeLowest: Layout {
    /// A waiting cell with its charge, than which no waiting charge is lower, and it waits no more; none where
    /// no cell waits.
    fn take_lowest<C: Charge>(queue: &mut TreeQueue<'_, C, Self>) -> Option<(usize, C)>
        requires { IsInOrder Self.Layout C.Charge queue.old }
        ensures order { IsInOrder Self.Layout C.Charge queue.new }
        ensures same { SameRows row_count row_lenders queue.old queue.new }
        ensures none { IfNone result (NoneWaits (what_waits queue.old) × (queue.new ≡ queue.old)) }
        ensures inside { IfSome result (λ p. p.0 < row_count queue.old) }
        ensures some { IfSome result (IsTakenFrom C.Charge.no_more queue.old queue.new) };
}
