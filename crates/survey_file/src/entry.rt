// Entries of a file, which are places and ways: what is read of one and entered into a draft, and how one is written.
ghost use Rattle.std.specs.Prelude.{◌≡◌, ℕ, List, Result, Some, IfOk};
ghost use Rattle.subject.specs.declared.refusal.Refusal.{Refusal as Why};
ghost use Rattle.subject.specs.declared.refusal.Fault.{Fault as Met};
ghost use Rattle.survey.specs.Contents.{Contents, contents};
ghost use Rattle.survey.specs.Edits.{add_place, add_way, answer_of, contents_after};
ghost use Rattle.survey_file.specs.declared.field.Head.{Head as HeadOf};
ghost use Rattle.survey_file.specs.declared.reader.Phase.{Phase as PhaseOf};
ghost use Rattle.survey_file.specs.declared.reader.Phase.TheVariants as phases;
ghost use Rattle.survey_file.specs.declared.reader.State.{State as StateOf};
ghost use Rattle.survey_file.specs.declared.record.Record.{Record as RecordOf};
ghost use Rattle.survey_file.specs.InField.{in_field, IsBehind};
ghost use Rattle.survey_file.specs.Records.{place_at, way_at};
ghost use Rattle.survey_file.specs.Encode.{repeater_field, place_field, way_field, HasField, HasByteLetter};
ghost use Rattle.survey_file.specs.Pieces.{put_answer, put_bytes};

use crate::bytes::put;
use crate::field::{Field, four_at, two_at};
use crate::reader::Phase;
use crate::record::Record;
use subject::refusal::{Fault, Refusal};
use survey::draft::Draft;
use survey::entry::{Place, WayEntry};

pub(crate) trait Entry: Copy {
    // what the field at a place says, by its head
    ghost read: { List ℕ → ℕ → HeadOf → Result (RecordOf Self) Met };

    // what a draft contains with it
    ghost enter: { Contents → Self → Result Contents Why };

    // what the reader has come to behind it
    ghost phase: { PhaseOf };

    // the bytes of its field
    ghost bytes: { Self → List ℕ };

    // it can be written
    ghost is_writable: { Self → Type 0 };

    // What a field says.
    fn read(field: &Field<'_>) -> Result<Record<Self>, Fault>
        ensures value { result ≡ in_field read field.now }
        ensures goes { IfOk result (λ x. IsBehind field.now x.next) };

    // The draft has the entry too, or refuses it.
    fn enter(self, draft: &mut Draft) -> Result<usize, Refusal>
        ensures answer { (s : StateOf) → answer_of s result ≡ answer_of s (enter (contents draft.old) self) }
        ensures after { let c = contents draft.old in contents draft.new ≡ contents_after c (enter c self) };

    // What the reader has come to behind an entry.
    fn phase() -> Phase
        ensures { result ≡ phase };

    // Its field is laid into the bytes at a place.
    fn put(self, out: &mut [u8], at: usize) -> Result<usize, Refusal>
        requires { is_writable self }
        ensures answer { result ≡ put_answer out.old at (bytes self) }
        ensures after { out.new ≡ put_bytes out.old at (bytes self) };
}

impl Entry for Place {
    ghost read = { place_at };

    ghost enter = { λ c p. add_place c p.repeater };

    ghost phase = { phases.Places };

    ghost bytes = { place_field };

    ghost is_writable = { HasField };

    // A place has no body, which is a blank, or a price in four bytes.
    fn read(field: &Field<'_>) -> Result<Record<Place>, Fault> {
        let body = field.at + 3;
        if field.head.length == 0 {
            return Ok(Record {
                entry: Place { repeater: None },
                next: body,
            });
        }
        let next = field.check_body(4)?;
        let price = four_at(field.bytes, body);
        Ok(Record {
            entry: Place {
                repeater: Some(price),
            },
            next,
        })
    }

    fn enter(self, draft: &mut Draft) -> Result<usize, Refusal> {
        draft.add_place(self.repeater)
    }

    fn phase() -> Phase {
        Phase::Places
    }

    fn put(self, out: &mut [u8], at: usize) -> Result<usize, Refusal> {
        match self.repeater {
            None => put(out, at, &[2, 0, 0]),
            Some(price) => put(out, at, &price_bytes(price)),
        }
    }
}

impl Entry for WayEntry {
    ghost read = { way_at };

    ghost enter = { add_way };

    ghost phase = { phases.Ways };

    ghost bytes = { way_field };

    ghost is_writable = { HasByteLetter };

    // A way has twelve bytes: from, to, letter, grade, metres and price.
    fn read(field: &Field<'_>) -> Result<Record<WayEntry>, Fault> {
        let next = field.check_body(12)?;
        let bytes = field.bytes;
        let body = field.at + 3;
        let entry = WayEntry {
            from: two_at(bytes, body),
            to: two_at(bytes, body + 2),
            letter: bytes[body + 4] as char,
            grade: bytes[body + 5],
            metres: two_at(bytes, body + 6),
            price: four_at(bytes, body + 8),
        };
        Ok(Record { entry, next })
    }

    fn enter(self, draft: &mut Draft) -> Result<usize, Refusal> {
        draft.add_way(self)
    }

    fn phase() -> Phase {
        Phase::Ways
    }

    fn put(self, out: &mut [u8], at: usize) -> Result<usize, Refusal> {
        put(out, at, &way_bytes(self))
    }
}

// The field of a place with a price.
fn price_bytes(price: u32) -> [u8; 7]
    ensures { result ≡ repeater_field (Some price) }
{
    let price = price.to_be_bytes();
    [2, 0, 4, price[0], price[1], price[2], price[3]]
}

// The field of a way.
fn way_bytes(way: WayEntry) -> [u8; 15]
    requires { HasByteLetter way }
    ensures { result ≡ way_field way }
{
    let from = way.from.to_be_bytes();
    let to = way.to.to_be_bytes();
    let letter = way.letter as u8;
    let metres = way.metres.to_be_bytes();
    let price = way.price.to_be_bytes();
    [
        3, 0, 12, from[0], from[1], to[0], to[1], letter, way.grade, metres[0], metres[1],
        price[0], price[1], price[2], price[3],
    ]
}
