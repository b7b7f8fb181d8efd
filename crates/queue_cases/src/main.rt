// Replays a list of queue calls, read as text, on a queue of each kind for money, and says where their answers differ.
// A line is "rows R", which starts over with R rows, or "put CELL CENTS", "take" or "empty".
// Of several lowest cells two queues may take different ones. If such a cell is put again before the others are taken,
// it still waits in one queue only, and from then on the charges may differ; a list without such a put gives the same.
#![tactic(auto)]

use std::io;

mod answer;
mod call;
mod kind;
mod replay;
#[cfg(test)]
mod tests;

fn run(rt: &HostRuntime) -> anyhow::Result<()> {
    let text = io::read_to_string(rt.alloc(), rt.stdin())?;
    let lines = call::read_lines(rt.alloc(), text.as_str())?;
    let tally = replay::replay(rt, lines.as_slice())?;
    println!(rt; "{tally}")?;
    Ok(())
}

fn main(rt: HostRuntime) -> anyhow::Result<()> {
    run(&rt)
}
