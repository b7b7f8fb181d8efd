ghost use Rattle.std.specs.Prelude.{false};
ghost use Rattle.std.proofs.Common.{rules};
ghost use Rattle.tree_queue.specs.Trees.{binary_parent, binary_child};

use crate::layout::Layout;
use crate::queue::TreeQueue;
use crate::take_lowest::TakeLowest;
use subject::charge::Charge;

/// An indexed binary heap over lent rows: a priority queue for every charge kind.
///
/// The lowest charge is on top. A cell is found by its position, without looking for it; to put or to take one
/// costs steps along one path of the tree.
pub type Heap<'a, C> = TreeQueue<'a, C, Binary>;

/// The binary tree: 2 i + 1 and 2 i + 2 are below the position i, and the lowest charge is on top.
#[derive(Drop)]
pub struct Binary;

impl Layout for Binary {
    ghost parent = { binary_parent };

    ghost first_child = { binary_child };

    ghost highest_on_top = { false };

    ghost is_tree = { Prim.search rules };

    fn parent(i: usize) -> usize {
        i.saturating_sub(1) / 2
    }

    fn first_child(i: usize, len: usize) -> Option<usize> {
        (i < len / 2).then(|| 2 * i + 1)
    }

    fn may_be_above<C: Charge>(a: &C, b: &C) -> bool {
        a.no_more(b)
    }
}

impl TakeLowest for Binary {
    fn take_lowest<C: Charge>(queue: &mut TreeQueue<'_, C, Binary>) -> Option<(usize, C)> {
        queue.take_top()
    }
}
