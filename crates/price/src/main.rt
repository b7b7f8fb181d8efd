// Reads a request, steps and a survey file from standard input, and prints the sheet of just these steps, or why it is
// refused.
#![tactic(auto)]

use answers::price::answer_from;

fn main(rt: HostRuntime) -> anyhow::Result<()> {
    answer_from(rt.alloc(), &mut rt.stdin(), &mut rt.stdout())
}
