ghost use Rattle.std.specs.Prelude.{◌≡◌, IfOk};
ghost use Rattle.survey_file.specs.InField.{in_field, IsBehind};
ghost use Rattle.survey_file.specs.Records.{edition_at, end_at};

use crate::field::{Field, two_at};
use subject::refusal::{Fault, Refusal};

/// An entry, a place or a way, as its field says it, and where the next field begins.
#[derive(Clone, Copy)]
pub struct Record<E> {
    pub entry: E,
    pub next: usize,
}

impl Field<'_> {
    // Where the field behind the head of the file begins. The edition is 1.
    pub(crate) fn edition(&self) -> Result<usize, Fault>
        ensures value { result ≡ in_field edition_at self.now }
        ensures goes { IfOk result (IsBehind self.now) }
    {
        let next = self.check_body(2)?;
        if two_at(self.bytes, self.at + 3) != 1 {
            return Err(self.fault(Refusal::WrongEdition));
        }
        Ok(next)
    }

    // Where the file ends. The end field has no body, and no byte is behind it.
    pub(crate) fn end(&self) -> Result<usize, Fault>
        ensures value { result ≡ in_field end_at self.now }
        ensures goes { IfOk result (IsBehind self.now) }
    {
        let next = self.check_body(0)?;
        if next < self.bytes.len() {
            return Err(Fault {
                refusal: Refusal::BytesBehind,
                place: next,
            });
        }
        Ok(next)
    }
}
