// The lines of the text: each one call, or one that cannot be read.
use std::alloc::{AllocError, Global};

/// A call of a queue.
#[derive(Clone, Copy)]
pub enum Call {
    /// start over with that many rows
    Rows(usize),
    /// put a cell with that many cents
    Put(usize, u64),
    /// take a lowest
    Take,
    /// let no cell wait
    Empty,
}

/// A line by its number, which begins at 1, and the call on it, or none where it cannot be read.
#[derive(Clone, Copy)]
pub struct Line {
    pub number: u64,
    pub call: Option<Call>,
}

impl Line {
    /// Whether the line starts over with other rows.
    pub fn starts_block(&self) -> bool {
        matches!(self.call, Some(Call::Rows(_)))
    }
}

// The call on a line: a word and its numbers, and nothing behind them.
fn read_call(text: &str) -> Option<Call> {
    let mut words = text.split_whitespace();
    let name = words.next()?;
    let call = match name {
        "rows" => Call::Rows(words.next()?.parse::<usize>().ok()?),
        "put" => {
            let cell = words.next()?.parse::<usize>().ok()?;
            let cents = words.next()?.parse::<u64>().ok()?;
            Call::Put(cell, cents)
        }
        "take" => Call::Take,
        "empty" => Call::Empty,
        _ => return None,
    };
    if words.next().is_some() {
        return None;
    }
    Some(call)
}

/// All lines, numbered.
pub fn read_lines(alloc: Global, text: &str) -> Result<Vec<Line>, AllocError> {
    text.lines()
        .zip(1..)
        .map(|(line, number)| Line {
            number,
            call: read_call(line),
        })
        .collect(alloc)
}
