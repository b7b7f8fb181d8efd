ghost use Rattle.std.specs.Prelude.{◌≡◌, ℕ, ◌<◌, ◌≤◌, Bool, IfNone, IfSome};
ghost use Rattle.tree_queue.specs.Order.{IsTree, may_be_above};

use subject::charge::Charge;

/// How a queue lays out the cells that wait: a tree over positions, and which charge is on top.
///
/// Each position but 0 is below an earlier one. At most two positions are below one, side by side. On top is the
/// lowest charge, or the highest.
pub trait Layout {
    // the position above
    ghost parent: { ℕ → ℕ };

    // the first position below
    ghost first_child: { ℕ → ℕ };

    // whether the highest charge is on top, and not the lowest
    ghost highest_on_top: { Bool };

    /// The position above one that is not 0.
    fn parent(i: usize) -> usize
        ensures { result ≡ parent i };

    /// The first position below, or none where that is not below `len`.
    fn first_child(i: usize, len: usize) -> Option<usize>
        ensures none { IfNone result (len ≤ first_child i) }
        ensures some { IfSome result (λ k. (k ≡ first_child i) × (k < len)) };

    /// Whether the first charge may be above the second.
    fn may_be_above<C: Charge>(a: &C, b: &C) -> bool
        ensures { result ≡ may_be_above highest_on_top C.Charge.no_more a.now b.now };

    ghost is_tree: { IsTree parent first_child };
}
