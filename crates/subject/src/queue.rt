ghost use Rattle.std.specs.Borrow.{GName};
ghost use Rattle.std.specs.Prelude.{◌≡◌, ℕ, ◌<◌, ◌≤◌, List, ◌∷◌, Option, IfNone, IfSome, IfErr, OnOk};
ghost use Rattle.subject.specs.Queues.{IsPut, IsTaken, NoneWaits, SameRows};
ghost use Rattle.subject.specs.declared.refusal.Refusal.TheVariants.{NoSuchCell};

use crate::charge::Charge;
use crate::refusal::Refusal;

/// For each cell number below the number of rows, a waiting charge or none.
///
/// The charge nothing waits like any other. A queue may count on the order that set-up and its own calls left in its rows.
pub trait PriorityQueue {
    type Charge: Charge;

    // the charge with which a cell waits, or none
    ghost waits: { Self → ℕ → Option Self.Charge };

    // the rows are in the order that the calls count on
    ghost is_ordered: { Self → Type 0 };

    // how many rows there are
    ghost rows: { Self → ℕ };

    // the references, from the outermost on, behind which the rows lie
    ghost lenders: { Self → List GName };

    /// How many rows there are: cell numbers are below that.
    fn rows(&self) -> usize
        ensures { result ≡ rows self.now };

    /// Now no cell waits, whatever the rows held.
    fn clear(&mut self)
        ensures ordered { is_ordered self.new }
        ensures same { SameRows rows lenders self.old self.new }
        ensures empty { NoneWaits (waits self.new) };

    /// The cell waits with the charge, in place of an older one. A cell number that is not below the number of rows is
    /// refused, and nothing changes.
    fn put(&mut self, cell: usize, charge: Self::Charge) -> Result<(), Refusal>
        requires { is_ordered self.old }
        ensures ordered { is_ordered self.new }
        ensures same { SameRows rows lenders self.old self.new }
        ensures ok { OnOk result ((cell < rows self.old) × IsPut (waits self.old) (waits self.new) cell charge) }
        ensures err { IfErr result (λ e. (e ≡ NoSuchCell) × (rows self.old ≤ cell) × (self.new ≡ self.old)) };

    /// A waiting cell with its charge, than which no waiting charge is lower, and it waits no more; none where no cell waits.
    fn take(&mut self) -> Option<(usize, Self::Charge)>
        requires { is_ordered self.old }
        ensures ordered { is_ordered self.new }
        ensures same { SameRows rows lenders self.old self.new }
        ensures none { IfNone result (NoneWaits (waits self.old) × (self.new ≡ self.old)) }
        ensures inside { IfSome result (λ p. p.0 < rows self.old) }
        ensures some { IfSome result (λ p. IsTaken Self.Charge.Charge.no_more (waits self.old) (waits self.new) p.0 p.1) };
}

/// A queue that is lent is a queue.
impl<Q: PriorityQueue> PriorityQueue for &mut Q {
    type Charge = Q::Charge;

    ghost waits = { λ q. Q.PriorityQueue.waits q.now };

    ghost is_ordered = { λ q. Q.PriorityQueue.is_ordered q.now };

    ghost rows = { λ q. Q.PriorityQueue.rows q.now };

    ghost lenders = { λ q. q.ghost_name ∷ Q.PriorityQueue.lenders q.now };

    fn rows(&self) -> usize {
        (**self).rows()
    }

    fn clear(&mut self) {
        (**self).clear()
    }

    fn put(&mut self, cell: usize, charge: Q::Charge) -> Result<(), Refusal> {
        (**self).put(cell, charge)
    }

    fn take(&mut self) -> Option<(usize, Q::Charge)> {
        (**self).take()
    }
}
