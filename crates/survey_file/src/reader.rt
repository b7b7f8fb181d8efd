ghost use Rattle.std.specs.Prelude.{◌≡◌, ◌<◌, ◌≤◌, length, IfOk, IfErr, Ok, OnOk};
ghost use Rattle.survey.specs.Contents.{contents, no_contents};
ghost use Rattle.survey.specs.Edits.{answer_of, contents_after};
ghost use Rattle.survey_file.specs.Decode.{is_ended, turn_of, state_of, contents_of, state_behind, decode};
ghost use Rattle.survey_file.specs.Encode.{file_of};
ghost use Rattle.survey_file.specs.Entering.{entered_by};
ghost use Rattle.survey_file.specs.Fields.{IsFileRefusal};
ghost use Rattle.survey_file.specs.InField.{IsBehind};

use crate::entry::Entry;
use crate::field::{Field, read_head};
use std::alloc::{AllocError, Global};
use subject::refusal::{Fault, Refusal};
use survey::draft::Draft;
use survey::entry::{Place, WayEntry};

/// What a reader has come to, which decides the tags that it accepts next.
///
/// The head is still to come; places, ways or the end; ways or the end; all was read.
#[derive(Clone, Copy, Debug, PartialEq, Eq)]
pub enum Phase {
    Head,
    Places,
    Ways,
    Ended,
}

impl Phase {
    fn is_ended(self) -> bool
        ensures { result ≡ is_ended self }
    {
        self == Phase::Ended
    }
}

/// Where a reader is: its phase, and how many bytes it has read.
#[derive(Clone, Copy)]
pub struct State {
    pub phase: Phase,
    pub at: usize,
}

// The reader moves on behind a field that enters nothing.
fn state_behind(phase: Phase, next: Result<usize, Fault>) -> Result<State, Fault>
    ensures { result ≡ state_behind phase next }
{
    next.map(|at| State { phase, at })
}

// What a field says is entered into the draft, and the reader moves on behind it.
fn enter<E: Entry>(field: &Field<'_>, draft: &mut Draft) -> Result<State, Fault>
    ensures state { result ≡ state_of (entered_by E.Entry field.now (contents draft.old)) }
    ensures draft { let c = contents draft.old in contents draft.new ≡ contents_of c (entered_by E.Entry field.now c) }
    ensures goes { IfOk result (λ t. IsBehind field.now t.at) }
{
    let record = E::read(field)?;
    let place = field.at;
    let behind = State {
        phase: E::phase(),
        at: record.next,
    };
    // The fault is made here: of a closure that calls `Field::fault` nothing is known.
    record
        .entry
        .enter(draft)
        .map_err(|refusal| Fault { refusal, place })
        .and(Ok(behind))
}

// One field: whether it may stand there is decided by the phase and the tag together.
fn turn(bytes: &[u8], s: State, draft: &mut Draft) -> Result<State, Fault>
    requires { s.at ≤ length bytes.now }
    ensures state { result ≡ state_of (turn_of bytes.now s (contents draft.old)) }
    ensures draft { let c = contents draft.old in contents draft.new ≡ contents_of c (turn_of bytes.now s c) }
    ensures goes { IfOk result (λ t. (s.at < t.at) × (t.at ≤ length bytes.now)) }
{
    let at = s.at;
    let head = read_head(bytes, at)?;
    let field = Field { bytes, at, head };
    match (s.phase, head.tag) {
        (Phase::Head, 1) => state_behind(Phase::Places, field.edition()),
        (Phase::Places, 2) => enter::<Place>(&field, draft),
        (Phase::Places, 3) => enter::<WayEntry>(&field, draft),
        (Phase::Places, 4) => state_behind(Phase::Ended, field.end()),
        (Phase::Ways, 3) => enter::<WayEntry>(&field, draft),
        (Phase::Ways, 4) => state_behind(Phase::Ended, field.end()),
        _ => Err(field.fault(Refusal::WrongTag)),
    }
}

// A whole file is read into an empty draft.
fn fill(bytes: &[u8], draft: &mut Draft) -> Result<(), Fault>
    requires { contents draft.old ≡ no_contents }
    ensures answer { result ≡ answer_of tt (decode bytes.now) }
    ensures draft { OnOk result (decode bytes.now ≡ Ok (contents draft.new)) }
{
    let mut s = State {
        phase: Phase::Head,
        at: 0,
    };
    while !s.phase.is_ended() {
        s = turn(bytes, s, draft)?;
    }
    Ok(())
}

/// A reader of survey files, with a draft of its own to read into, so that a refused file leaves the caller's draft.
///
/// It takes the memory of that draft when it is made. The draft is empty between two calls.
#[derive(Drop)]
pub struct FileReader {
    spare: Draft,
    ghost is_ready: { contents spare ≡ no_contents },
}

impl FileReader {
    /// A reader, with all the memory that it will need.
    pub fn new(alloc: Global) -> Result<FileReader, AllocError> {
        let spare = Draft::new(alloc)?;
        Ok(FileReader { spare })
    }

    /// Reads a whole file into a draft, in place of what was there.
    ///
    /// A file that is refused leaves the draft as it was. The answer is then the refusal, which has a number from 1 to
    /// 10, and its byte place; docs/SURVEY-FILE.md has the checks in their order. A file that is accepted is the one
    /// that is written from what it reads as.
    pub fn read(&mut self, bytes: &[u8], draft: &mut Draft) -> Result<(), Fault>
        ensures answer { result ≡ answer_of tt (decode bytes.now) }
        ensures after { contents draft.new ≡ contents_after (contents draft.old) (decode bytes.now) }
        ensures written { OnOk result (bytes.now ≡ file_of (contents draft.new)) }
        ensures refusal { IfErr result (λ f. IsFileRefusal f.refusal) }
    {
        if let Err(fault) = fill(bytes, &mut self.spare) {
            self.spare.clear();
            return Err(fault);
        }
        std::mem::swap(&mut self.spare, draft);
        self.spare.clear();
        Ok(())
    }
}
