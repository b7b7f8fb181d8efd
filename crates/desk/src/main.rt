// A desk for an estimator with a survey in hand. It reads a survey file and a text of calls, tries the calls one by one on
// a job over the survey, for money, and prints what each gave; and then the run of the last line, which is a plan.
// It is run as "desk SURVEY CALLS", with the names of two files, as examples/house.survey and examples/house.calls.
// A line of the text is "close W", "reopen W" or "plan START END BOUND". Where a text cannot be read, whatever its bytes,
// the number of the line is printed, and nothing is tried.
#![tactic(auto)]

use answers::desk::answer;
use anyhow::Context;
use std::{env, fs};

// The bytes of a file; where there are none to be had, the error names the file, since there are two.
fn bytes_of(rt: &HostRuntime, name: &str) -> anyhow::Result<Vec<u8>> {
    fs::read(rt, name).context(name)
}

fn main(rt: HostRuntime) -> anyhow::Result<()> {
    let mut args = env::args(&rt)?;
    let _ = args.next();
    if let (Some(survey_name), Some(calls_name)) = (args.next(), args.next()) {
        let file = bytes_of(&rt, survey_name.as_str())?;
        let text = bytes_of(&rt, calls_name.as_str())?;
        return answer(rt.alloc(), &file, &text, &mut rt.stdout());
    }
    println!(rt; "usage: desk SURVEY CALLS")?;
    Ok(())
}
