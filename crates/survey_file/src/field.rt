// Fields: a tag in one byte, a length in two, and a body of that length. Numbers have their high byte first.
ghost use Rattle.std.specs.Prelude.{◌≡◌, ◌+◌, ◌≤◌, length, OnOk};
ghost use Rattle.survey_file.specs.Fields.{two_at, four_at, head_at, body_at, fault_of};

use subject::refusal::{Fault, Refusal};

/// The first three bytes of a field: its tag, and how many bytes its body has.
#[derive(Clone, Copy)]
pub struct Head {
    pub tag: u8,
    pub length: usize,
}

// A field of a file: the bytes of the file, how many of them stand before the field, and its head, which is there.
#[derive(Clone, Copy)]
pub(crate) struct Field<'a> {
    pub bytes: &'a [u8],
    pub at: usize,
    pub head: Head,
    ghost head_is_there: { at + 3 ≤ length bytes.now },
}

// The number in two bytes.
pub(crate) fn two_at(bytes: &[u8], at: usize) -> u16
    requires { at + 2 ≤ length bytes.now }
    ensures { result ≡ two_at bytes.now at }
{
    u16::from_be_bytes([bytes[at], bytes[at + 1]])
}

// The number in four bytes.
pub(crate) fn four_at(bytes: &[u8], at: usize) -> u32
    requires { at + 4 ≤ length bytes.now }
    ensures { result ≡ four_at bytes.now at }
{
    u32::from_be_bytes([bytes[at], bytes[at + 1], bytes[at + 2], bytes[at + 3]])
}

// The head of the field that begins at a place, or a fault where three bytes are not there.
pub(crate) fn read_head(bytes: &[u8], at: usize) -> Result<Head, Fault>
    requires { at ≤ length bytes.now }
    ensures value { result ≡ head_at bytes.now at }
    ensures there { OnOk result (at + 3 ≤ length bytes.now) }
{
    if bytes.len() - at < 3 {
        return Err(Fault {
            refusal: Refusal::CutShort,
            place: at,
        });
    }
    Ok(Head {
        tag: bytes[at],
        length: two_at(bytes, at + 1) as usize,
    })
}

impl Field<'_> {
    // A refusal that is met in the field.
    pub(crate) fn fault(&self, refusal: Refusal) -> Fault
        ensures { result ≡ fault_of refusal self.now.at }
    {
        Fault {
            refusal,
            place: self.at,
        }
    }

    // Where the next field begins. The field has the length that is wanted, and its body is there.
    pub(crate) fn check_body(&self, wanted: usize) -> Result<usize, Fault>
        ensures { result ≡ body_at self.now.bytes.now self.now.at self.now.head wanted }
    {
        if self.head.length != wanted {
            return Err(self.fault(Refusal::WrongLength));
        }
        if self.bytes.len() - self.at - 3 < wanted {
            return Err(self.fault(Refusal::CutShort));
        }
        Ok(self.at + 3 + wanted)
    }
}
