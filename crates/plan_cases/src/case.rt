// One case: what is planned, what it should give, and what it gave with a queue of each kind.
ghost use Rattle.std.specs.Prelude.{◌≡◌, if◌then◌else◌};
ghost use Rattle.plan_cases.specs.Counts.{count_after};
ghost use Rattle.sample_house.specs.House.{across};

use crate::figure::{Figure, figure_of};
use crate::kind::{Asked, KINDS, Kind};
use crate::rows::Rows;
use search::check::RowCounts;
use std::{fmt, io};
use subject::refusal::Refusal;
use subject::run::Request;
use subject::site::Site;

/// A case: what is planned, and the figure or the refusal that it should give.
#[derive(Clone, Copy)]
pub struct Case<'a> {
    pub name: &'a str,
    pub asked: Asked,
    pub expected: Result<u64, Refusal>,
}

/// How many cases there were, and how many gave with every queue what they should.
#[derive(Clone, Copy)]
pub struct Tally {
    pub cases: u64,
    pub right: u64,
}

impl Tally {
    // One more case.
    fn count(&mut self, right: bool)
        ensures cases { self.new.cases ≡ count_after self.old.cases }
        ensures right { self.new.right ≡ (if right then count_after self.old.right else self.old.right) }
    {
        self.cases = self.cases.saturating_add(1);
        if right {
            self.right = self.right.saturating_add(1);
        }
    }
}

/// A run across the house: from the place 0 to the place 3.
pub fn across(bound: usize) -> Request
    ensures { result ≡ across bound }
{
    Request {
        start: 0,
        end: 3,
        bound,
    }
}

// A figure or a refusal, as it is printed.
#[derive(Clone, Copy)]
struct Shown(Result<u64, Refusal>);

impl fmt::Display for Shown {
    fn fmt<W: fmt::Write>(&self, f: &mut fmt::Formatter<W>) -> fmt::Result {
        match self.0 {
            Ok(figure) => write!(f, "{figure}"),
            Err(refusal) => write!(f, "REFUSED {refusal}"),
        }
    }
}

// What a case gave with a queue of a kind.
#[derive(Clone, Copy)]
struct Gave {
    kind: Kind,
    figure: Result<u64, Refusal>,
}

/// Plays cases, prints what each gave, and counts them.
#[derive(Drop)]
pub struct Cases<'a> {
    pub rt: &'a HostRuntime,
    pub tally: Tally,
}

impl Cases<'_> {
    // Prints what a case gave with each queue, and counts it.
    fn tell(&mut self, case: Case, gave: &[Gave]) -> io::Result<()> {
        let right = gave.iter().all(|gave| gave.figure == case.expected);
        self.tally.count(right);
        let name = case.name;
        print!(self.rt; "{name}")?;
        let mut separator = ":";
        for Gave { kind, figure } in gave {
            let figure = Shown(*figure);
            print!(self.rt; "{separator} {kind} {figure}")?;
            separator = ",";
        }
        if right {
            return println!(self.rt; "");
        }
        let expected = Shown(case.expected);
        println!(self.rt; ", AND NOT {expected}")
    }

    /// Plans with a queue of each kind in turn: with the first over used rows, and with the next over the rows as
    /// the plan before has left them.
    pub fn play<S: Site>(&mut self, case: Case, site: &S, counts: RowCounts) -> anyhow::Result<()>
    where
        S::Charge: Figure,
    {
        let alloc = self.rt.alloc();
        let mut rows = Rows::used(alloc, counts)?;
        let mut gave = Vec::new(alloc);
        for kind in KINDS {
            let figure = figure_of(kind.plan(site, case.asked, &mut rows));
            gave.push(Gave { kind, figure })?;
        }
        self.tell(case, &gave)?;
        Ok(())
    }
}
