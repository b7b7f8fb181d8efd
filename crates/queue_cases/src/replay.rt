// The lines of the text on a queue of each kind, block by block: each "rows R" starts a block with fresh rows.
ghost use Rattle.std.specs.Prelude.{◌≡◌, if◌then◌else◌, length, OnOk};
ghost use Rattle.std.specs.List.{All};
ghost use Rattle.queue_cases.specs.Answers.{HavePlayed};
ghost use Rattle.queue_cases.specs.Counts.{count_after};

use crate::answer::{Answer, ask_each};
use crate::call::{Call, Line};
use crate::kind::{ALL_QUEUES, queues_over, rows_of_kinds};
use std::{fmt, io};
use subject::money::Money;
use subject::queue::PriorityQueue;

/// To how many calls all queues answered alike, and to how many not.
#[derive(Clone, Copy)]
pub struct Tally {
    pub agreed: u64,
    pub differed: u64,
}

impl Tally {
    // One more call.
    fn count(&mut self, same: bool)
        ensures agreed { self.new.agreed ≡ (if same then count_after self.old.agreed else self.old.agreed) }
        ensures differed { self.new.differed ≡ (if same then self.old.differed else count_after self.old.differed) }
    {
        if same {
            self.agreed = self.agreed.saturating_add(1);
        } else {
            self.differed = self.differed.saturating_add(1);
        }
    }
}

impl fmt::Display for Tally {
    fn fmt<W: fmt::Write>(&self, f: &mut fmt::Formatter<W>) -> fmt::Result {
        let agreed = self.agreed;
        let differed = self.differed;
        let calls = agreed.saturating_add(differed);
        let queues = ALL_QUEUES;
        write!(
            f,
            "{calls} calls on {queues}: {agreed} agreed, {differed} differed"
        )
    }
}

// Plays lines, prints as it goes, and counts how they were answered.
#[derive(Drop)]
struct Player<'a> {
    rt: &'a HostRuntime,
    tally: Tally,
}

impl Player<'_> {
    // The answers to one line: the first and SAME, or the first, OTHER and those that differ from it. A line
    // that no queue answers cannot be read.
    fn print(&mut self, number: u64, answers: &[Option<Answer>]) -> io::Result<()> {
        let Some((Some(first), others)) = answers.split_first() else {
            return println!(self.rt; "LINE {number} CANNOT BE READ");
        };
        let same = others.iter().flatten().all(|other| other == first);
        self.tally.count(same);
        if same {
            return println!(self.rt; "{first} SAME");
        }
        print!(self.rt; "{first} OTHER")?;
        for other in others.iter().flatten() {
            if other != first {
                print!(self.rt; " {other}")?;
            }
        }
        println!(self.rt; "")
    }

    // The lines in turn, each on all of the queues. The answers to a line are printed before the next line is played.
    fn play_lines<Q: PriorityQueue<Charge = Money>>(
        &mut self,
        queues: &mut [Q],
        answers: &mut [Option<Answer>],
        lines: &[Line],
    ) -> io::Result<()>
        requires ordered { All Q.PriorityQueue.is_ordered queues.old }
        requires as_many { length answers.old ≡ length queues.old }
        ensures ordered { All Q.PriorityQueue.is_ordered queues.new }
        ensures played { OnOk result (HavePlayed Q.PriorityQueue lines.now queues.old queues.new) }
    {
        for line in lines {
            ask_each(queues, line, answers);
            self.print(line.number, answers)?;
        }
        Ok(())
    }

    // A block of lines that begins with the number of rows.
    fn play_block(&mut self, row_count: usize, lines: &[Line]) -> anyhow::Result<()> {
        let alloc = self.rt.alloc();
        let mut rows = rows_of_kinds(alloc, row_count)?;
        let mut queues = queues_over(alloc, &mut rows)?;
        let mut answers = vec![in alloc; None; queues.len()]?;
        self.play_lines(&mut queues, &mut answers, lines)?;
        Ok(())
    }
}

/// All lines, block by block.
pub fn replay(rt: &HostRuntime, lines: &[Line]) -> anyhow::Result<Tally> {
    let mut player = Player {
        rt,
        tally: Tally {
            agreed: 0,
            differed: 0,
        },
    };
    for block in lines.chunk_by(|_, line| !line.starts_block()) {
        let Some(first) = block.first() else {
            continue;
        };
        let number = first.number;
        match first.call {
            Some(Call::Rows(row_count)) => player.play_block(row_count, block)?,
            _ => println!(rt;
                "LINE {number} DOES NOT SAY HOW MANY ROWS, SO ITS BLOCK IS LEFT OUT"
            )?,
        }
    }
    Ok(player.tally)
}
