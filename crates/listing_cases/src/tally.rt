// What was listed and planned, and how often the plans differ from the list.
ghost use Rattle.std.specs.Prelude.{◌≡◌, if◌then◌else◌, ◌==◌};
ghost use Rattle.listing_cases.specs.Counts.{count_after, count_plus};

use std::fmt;

/// How many houses there were, how many runs they have, how many of them have none, how many plans were compared, and
/// how many of those differ from the list.
#[derive(Clone, Copy)]
pub struct Tally {
    houses: u64,
    runs: u64,
    none: u64,
    plans: u64,
    differ: u64,
}

impl Tally {
    /// Nothing yet.
    pub fn new() -> Tally {
        Tally {
            houses: 0,
            runs: 0,
            none: 0,
            plans: 0,
            differ: 0,
        }
    }

    /// One more house, with so many runs.
    pub fn count_house(&mut self, runs: u64)
        ensures houses { self.new.houses ≡ count_after self.old.houses }
        ensures runs { self.new.runs ≡ count_plus self.old.runs runs }
        ensures none { self.new.none ≡ (if runs == 0 then count_after self.old.none else self.old.none) }
    {
        self.houses = self.houses.saturating_add(1);
        self.runs = self.runs.saturating_add(runs);
        if runs == 0 {
            self.none = self.none.saturating_add(1);
        }
    }

    // One more plan, which gave what was listed or not.
    fn count_plan(&mut self, same: bool)
        ensures plans { self.new.plans ≡ count_after self.old.plans }
        ensures differ { self.new.differ ≡ (if same then self.old.differ else count_after self.old.differ) }
    {
        self.plans = self.plans.saturating_add(1);
        if !same {
            self.differ = self.differ.saturating_add(1);
        }
    }

    /// Plans of one kind of charge, which should all give what was listed.
    pub fn count_plans(&mut self, listed: Option<u64>, planned: &[Option<u64>]) {
        for figure in planned {
            self.count_plan(*figure == listed);
        }
    }
}

impl fmt::Display for Tally {
    fn fmt<W: fmt::Write>(&self, f: &mut fmt::Formatter<W>) -> fmt::Result {
        let Tally {
            houses,
            runs,
            none,
            plans,
            differ,
        } = *self;
        write!(
            f,
            "{houses} houses with {runs} runs, {none} of them with none; {plans} plans compared, {differ} differ"
        )
    }
}
