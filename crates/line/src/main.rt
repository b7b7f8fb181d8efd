// Reads a request and a survey file from standard input, and prints the sheet of a cheapest run, or why it is refused.
#![tactic(auto)]

use answers::line::answer_from;

fn main(rt: HostRuntime) -> anyhow::Result<()> {
    answer_from(rt.alloc(), &mut rt.stdin(), &mut rt.stdout())
}
