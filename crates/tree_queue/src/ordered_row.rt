ghost use Rattle.std.specs.Prelude.{true};
ghost use Rattle.std.proofs.Common.{rules};
ghost use Rattle.tree_queue.specs.Trees.{chain_parent, chain_child};

use crate::layout::Layout;
use crate::queue::TreeQueue;
use crate::take_lowest::TakeLowest;
use subject::charge::Charge;

/// The waiting cells in the order of their charges, over lent rows: a priority queue for every charge kind.
///
/// The highest charge is first and a lowest one last, so that to take one is a single step; to put one costs a
/// step for each cell that it goes past.
pub type OrderedRow<'a, C> = TreeQueue<'a, C, Chain>;

/// The chain: i + 1 is below the position i, and the highest charge is on top.
#[derive(Drop)]
pub struct Chain;

impl Layout for Chain {
    ghost parent = { chain_parent };

    ghost first_child = { chain_child };

    ghost highest_on_top = { true };

    ghost is_tree = { Prim.search rules };

    fn parent(i: usize) -> usize {
        i.saturating_sub(1)
    }

    fn first_child(i: usize, len: usize) -> Option<usize> {
        i.checked_add(1).filter(|next| *next < len)
    }

    fn may_be_above<C: Charge>(a: &C, b: &C) -> bool {
        b.no_more(a)
    }
}

impl TakeLowest for Chain {
    #[tactic(auto, using(crate::proofs::Lowest::lowest_taken))]
    fn take_lowest<C: Charge>(queue: &mut TreeQueue<'_, C, Chain>) -> Option<(usize, C)> {
        queue.take_last()
    }
}
