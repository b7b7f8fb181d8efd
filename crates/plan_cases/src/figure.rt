// The number that is printed for a charge.
ghost use Rattle.std.specs.Prelude.{◌≡◌, ℕ};
ghost use Rattle.subject.specs.Moneys.{amount};
ghost use Rattle.plan_cases.specs.Figures.{figure_given};

use planner::plan::Planned;
use subject::charge::Charge;
use subject::disturbance::Disturbance;
use subject::money::Money;
use subject::refusal::Refusal;

/// A charge kind whose charges are printed as one number.
pub trait Figure: Charge {
    // the number
    ghost figure: { Self → ℕ };

    /// The number that is printed for the charge.
    fn figure(&self) -> u64
        ensures { result ≡ figure self.now };
}

/// Money is printed in cents.
impl Figure for Money {
    ghost figure = { amount };

    fn figure(&self) -> u64 {
        self.amount()
    }
}

/// Disturbance is printed as its grade.
impl Figure for Disturbance {
    ghost figure = { λ d. d.grade };

    fn figure(&self) -> u64 {
        u64::from(self.grade)
    }
}

/// What a plan gave: the figure of its total, or the refusal.
pub fn figure_of<C: Figure>(planned: Result<Planned<C>, Refusal>) -> Result<u64, Refusal>
    ensures { result ≡ figure_given C.Figure.figure planned }
{
    planned.map(|planned| planned.total.figure())
}
