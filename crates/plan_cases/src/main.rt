// Plans on a house of four places, and on floor grids, with a queue of each kind, and prints what each case gave and,
// where that is not what it should be, what it should have given.
#![tactic(auto)]

use crate::case::{Cases, Tally};
use crate::kind::ALL_QUEUES;

mod case;
mod few;
mod figure;
mod floor;
mod jobs;
mod kind;
mod plain;
mod rows;

fn run(rt: &HostRuntime) -> anyhow::Result<()> {
    let tally = Tally { cases: 0, right: 0 };
    let mut cases = Cases { rt, tally };
    plain::bounds(&mut cases)?;
    plain::nowhere(&mut cases)?;
    plain::repeaters(&mut cases)?;
    plain::disturbance(&mut cases)?;
    few::few_rows(&mut cases)?;
    few::used_rows(&mut cases)?;
    jobs::closing(&mut cases)?;
    jobs::closing_twice(&mut cases)?;
    floor::on_two_jobs(&mut cases)?;
    floor::on_one_job(&mut cases)?;
    floor::corner_to_corner(&mut cases)?;
    let Tally {
        cases: count,
        right,
    } = cases.tally;
    println!(rt; "{count} cases, each with {ALL_QUEUES}: {right} as expected")?;
    Ok(())
}

fn main(rt: HostRuntime) -> anyhow::Result<()> {
    run(&rt)
}
