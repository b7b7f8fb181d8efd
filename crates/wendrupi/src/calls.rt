//! Calls on a job as a text, a call to a line, whose places are given by name or number.

use crate::lines::{says_nothing, without_return};
use crate::place::place_of_word;
use csv::{ByteRecord, ReaderBuilder};
use job::call_text::read_line;
use job::list::{Answer, Call, Entry};
use job::script::{Script, Trouble};
use std::alloc::{AllocError, Global};
use std::fmt;
use std::str::from_utf8;
use subject::run::Request;

/// Why a text is no script.
#[derive(Debug, Drop)]
pub enum CallsTrouble {
    /// A line is no call, the last call is no plan, or there is no call.
    NoScript(Trouble),
    /// A plan is for a place that is not there.
    NoPlace { line: u64, word: String },
}

impl fmt::Display for CallsTrouble {
    fn fmt<W: fmt::Write>(&self, f: &mut fmt::Formatter<W>) -> fmt::Result {
        match self {
            CallsTrouble::NoScript(trouble) => write!(f, "{trouble}"),
            CallsTrouble::NoPlace { line, word } => {
                write!(f, "line {line}: there is no place \"{word}\"")
            }
        }
    }
}

// What a line says: a call, or none, or a plan for a place that is not there.
#[derive(Drop)]
enum LineSays {
    Call(Call),
    NoCall,
    NoPlace(String),
}

// The words of a line: spaces are between them, and a word with spaces is in quotes.
fn words_of(alloc: Global, line: &[u8]) -> Result<ByteRecord, AllocError> {
    let mut reader = ReaderBuilder::new()
        .delimiter(b' ')
        .has_headers(false)
        .flexible(true)
        .from_reader(alloc, line);
    let mut row = ByteRecord::new(alloc);
    match reader.read_byte_record(&mut row) {
        Ok(_) => Ok(row),
        Err(_) => Err(AllocError),
    }
}

// A word as text.
fn word_at(words: &ByteRecord, place: usize) -> Option<&str> {
    from_utf8(words.get(place)?).ok()
}

// The place that a word means, or the word.
fn place_at<'a>(names: &[String], words: &'a ByteRecord, at: usize) -> Result<usize, &'a str> {
    let word = word_at(words, at).unwrap_or("");
    place_of_word(names, word).ok_or(word)
}

// What the words of a plan say.
fn plan_says(alloc: Global, names: &[String], words: &ByteRecord) -> Result<LineSays, AllocError> {
    if words.len() != 4 {
        return Ok(LineSays::NoCall);
    }
    let Some(bound) = word_at(words, 3).and_then(|word| word.parse::<usize>().ok()) else {
        return Ok(LineSays::NoCall);
    };
    match (place_at(names, words, 1), place_at(names, words, 2)) {
        (Ok(start), Ok(end)) => Ok(LineSays::Call(Call::Plan(Request { start, end, bound }))),
        (Err(word), _) | (_, Err(word)) => { Ok(LineSays::NoPlace(String::from_str(alloc, word)?)) }
    }
}

// What a line says.
fn line_says(alloc: Global, names: &[String], line: &[u8]) -> Result<LineSays, AllocError> {
    let words = words_of(alloc, line)?;
    if words.get(0) == Some(b"plan".as_slice()) {
        return plan_says(alloc, names, &words);
    }
    match read_line(alloc, line)? {
        Some(call) => Ok(LineSays::Call(call)),
        None => Ok(LineSays::NoCall),
    }
}

// The script of the calls that were read, up to the line with this number.
fn script_of(
    mut entries: Vec<Entry<subject::money::Money>>,
    line: u64,
) -> Result<Script, CallsTrouble> {
    match entries.pop() {
        None => Err(CallsTrouble::NoScript(Trouble::NoLines)),
        Some(entry) => match entry.call {
            Call::Plan(last) => Ok(Script { entries, last }),
            _ => Err(CallsTrouble::NoScript(Trouble::NoPlan(line))),
        },
    }
}

/// The script of a text, or why it is none. Blank lines and remarks are passed over.
///
/// The outer error is want of memory.
pub fn read_calls(
    alloc: Global,
    names: &[String],
    text: &[u8],
) -> Result<Result<Script, CallsTrouble>, AllocError> {
    let mut entries = Vec::new(alloc);
    let mut number: u64 = 0;
    let mut last: u64 = 0;
    for line in text.split(|byte| *byte == b'\n') {
        number = number.saturating_add(1);
        let line = without_return(line);
        if says_nothing(line) {
            continue;
        }
        last = number;
        match line_says(alloc, names, line)? {
            LineSays::Call(call) => entries.push(Entry {
                call,
                answer: Answer::Untried,
            })?,
            LineSays::NoCall => return Ok(Err(CallsTrouble::NoScript(Trouble::NoCall(number)))),
            LineSays::NoPlace(word) => {
                return Ok(Err(CallsTrouble::NoPlace { line: number, word }));
            }
        }
    }
    Ok(script_of(entries, last))
}
