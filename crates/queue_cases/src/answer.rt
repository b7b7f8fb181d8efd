// Calls on any queue for money, and its answers.
ghost use Rattle.std.specs.Prelude.{◌≡◌, length, IfOk};
ghost use Rattle.std.specs.List.{All};
ghost use Rattle.queue_cases.specs.Answers.{IsAnswer, IsLineAnswerOn, HaveAnswered, AreAnswersOf};

use crate::call::{Call, Line};
use std::alloc::{AllocError, Global};
use std::fmt;
use subject::money::Money;
use subject::queue::PriorityQueue;
use subject::refusal::Refusal;

/// What a queue answers to a call.
#[derive(Clone, Copy, PartialEq, Eq)]
pub enum Answer {
    /// how many rows there are
    Rows(usize),
    /// the cell waits, or the call is refused, and nothing has changed
    Put(Result<(), Refusal>),
    /// a charge that means so many cents was taken, or no cell waits
    Took(Option<u64>),
    /// now no cell waits
    Emptied,
}

impl fmt::Display for Answer {
    fn fmt<W: fmt::Write>(&self, f: &mut fmt::Formatter<W>) -> fmt::Result {
        match *self {
            Answer::Rows(count) => write!(f, "ROWS {count}"),
            Answer::Put(Ok(())) => write!(f, "PUT"),
            Answer::Put(Err(refusal)) => write!(f, "REFUSED {refusal}"),
            Answer::Took(Some(cents)) => write!(f, "TOOK {cents}"),
            Answer::Took(None) => write!(f, "NONE"),
            Answer::Emptied => write!(f, "EMPTIED"),
        }
    }
}

/// The answer of a queue to a call. Asked for rows, it only says how many it has.
pub fn ask<Q: PriorityQueue<Charge = Money>>(queue: &mut Q, call: Call) -> Answer
    requires { Q.PriorityQueue.is_ordered queue.old }
    ensures ordered { Q.PriorityQueue.is_ordered queue.new }
    ensures rows { Q.PriorityQueue.rows queue.new ≡ Q.PriorityQueue.rows queue.old }
    ensures answer { IsAnswer Q.PriorityQueue queue.old queue.new call result }
{
    match call {
        Call::Rows(_) => Answer::Rows(Q::rows(queue)),
        Call::Put(cell, cents) => Answer::Put(queue.put(cell, Money { cents })),
        Call::Take => Answer::Took(queue.take().map(|(_, charge)| charge.amount())),
        Call::Empty => {
            queue.clear();
            Answer::Emptied
        }
    }
}

// The answer of a queue to the call on a line, or none where there is no call.
fn ask_line<Q: PriorityQueue<Charge = Money>>(queue: &mut Q, line: &Line) -> Option<Answer>
    requires { Q.PriorityQueue.is_ordered queue.old }
    ensures ordered { Q.PriorityQueue.is_ordered queue.new }
    ensures rows { Q.PriorityQueue.rows queue.new ≡ Q.PriorityQueue.rows queue.old }
    ensures answer { IsLineAnswerOn Q.PriorityQueue queue.old queue.new line.now result }
{
    Some(ask(queue, line.call?))
}

/// The answer of each queue to the call on a line, in place of what `answers` held; none where there is no call.
pub fn ask_each<Q: PriorityQueue<Charge = Money>>(
    queues: &mut [Q],
    line: &Line,
    answers: &mut [Option<Answer>],
)
    requires ordered { All Q.PriorityQueue.is_ordered queues.old }
    requires as_many { length answers.old ≡ length queues.old }
    ensures ordered { All Q.PriorityQueue.is_ordered queues.new }
    ensures answered { HaveAnswered Q.PriorityQueue line.now queues.old queues.new answers.new }
{
    for (i, queue) in queues.iter_mut().enumerate() {
        answers[i] = ask_line(queue, line);
    }
}

/// The answers of a queue to the lines in turn, none for a line that has no call.
pub fn ask_all<Q: PriorityQueue<Charge = Money> + Drop>(
    alloc: Global,
    mut queue: Q,
    lines: &[Line],
) -> Result<Vec<Option<Answer>>, AllocError>
    requires { Q.PriorityQueue.is_ordered queue }
    ensures { IfOk result (λ v. AreAnswersOf Q.PriorityQueue queue lines.now v.items) }
{
    let mut answers = Vec::new(alloc);
    for line in lines {
        answers.push(ask_line(&mut queue, line))?;
    }
    Ok(answers)
}
