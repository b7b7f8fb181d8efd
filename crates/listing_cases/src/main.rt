// Small houses against a listing of all runs. Thousands of houses are made from fixed seeds; for each, every lawful run
// that never leaves a place twice with the same loss is listed by plain recursion, which shares no code with the
// planner, and the least total is compared with what planning gives: for money and for disturbance, with a queue of
// each kind, over a job with some ways closed, on rows that the plan before has left dirty.
#![tactic(auto)]

mod house;
mod kind;
mod list;
mod random;
mod tally;

use crate::house::{Question, make_draft, make_question};
use crate::kind::{KINDS, Rows};
use crate::list::list_runs;
use crate::random::Random;
use crate::tally::Tally;
use job::job::Job;
use subject::disturbance::Disturbance;
use subject::money::Money;
use subject::site::Site;
use survey::view::{DisturbanceView, MoneyView};

// How many houses there are.
const HOUSES: u64 = 4000;

// Enough rows for 5 places and bounds up to 7.
const ROW_COUNT: usize = 40;

// Plans over a job with some ways closed: the figure of the total with a queue of each kind, or none.
fn plan_figures<S: Site + Drop, F: Fn(S::Charge) -> u64>(
    rt: &HostRuntime,
    site: S,
    asked: &Question,
    rows: &mut Rows<S::Charge>,
    figure: F,
) -> anyhow::Result<Vec<Option<u64>>>
    requires { F.IsAlwaysCallable figure }
{
    let mut job = Job::new(rt.alloc(), site)?;
    for way in asked.closed {
        let _ = job.close(way);
    }
    let mut figures = Vec::new(rt.alloc());
    for kind in KINDS {
        let planned = kind.plan(&job, asked.request, rows);
        figures.push(planned.map(|planned| figure(planned.total)).ok())?;
    }
    Ok(figures)
}

// The house of a seed: what is listed, and what is planned for money and for disturbance.
fn try_house(
    rt: &HostRuntime,
    seed: u64,
    for_money: &mut Rows<Money>,
    for_grade: &mut Rows<Disturbance>,
    tally: &mut Tally,
) -> anyhow::Result<()> {
    let mut random = Random::new(seed);
    let survey = make_draft(rt.alloc(), &mut random)?.seal();
    let asked = make_question(&mut random, survey.places());
    let found = list_runs(rt.alloc(), &survey, &asked)?;
    tally.count_house(found.runs);
    let money = MoneyView::over(&survey);
    let cents = plan_figures(rt, money, &asked, for_money, |total: Money| total.amount())?;
    tally.count_plans(found.money, &cents);
    let disturbance = DisturbanceView::over(&survey);
    let grades = plan_figures(rt, disturbance, &asked, for_grade, |total: Disturbance| {
        u64::from(total.grade)
    })?;
    tally.count_plans(found.grade, &grades);
    Ok(())
}

fn run(rt: &HostRuntime) -> anyhow::Result<()> {
    let mut for_money = Rows::new(rt.alloc(), ROW_COUNT)?;
    let mut for_grade = Rows::new(rt.alloc(), ROW_COUNT)?;
    let mut tally = Tally::new();
    for seed in 0..HOUSES {
        try_house(rt, seed, &mut for_money, &mut for_grade, &mut tally)?;
    }
    println!(rt; "{tally}")?;
    Ok(())
}

fn main(rt: HostRuntime) -> anyhow::Result<()> {
    run(&rt)
}
