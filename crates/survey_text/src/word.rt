// A word of a text, as a trouble tells it.
ghost use Rattle.std.specs.Prelude.{◌≡◌, Some, IfOk};
ghost use Rattle.survey_text.specs.Fields.{word_of_field};

use std::alloc::{AllocError, Global};
use std::fmt;
use std::marker::Model;
use std::str::from_utf8;

/// A field of a text as it stands there, without its quotes.
#[derive(Debug, Drop)]
pub struct Word {
    text: String,
}

impl Model for Word {
    ghost use Rattle.std.specs.Prelude.{List, ℕ, string_bytes};

    ghost Value = { List ℕ };

    ghost view = { λ w. string_bytes w.text };
}

// A field that is UTF-8, or nothing.
fn word_of_field(field: &[u8]) -> &str
    ensures { result.now ≡ word_of_field field.now }
{
    match from_utf8(field) {
        Ok(text) => text,
        Err(_) => "",
    }
}

impl Word {
    /// The word of a field, empty where the field is no UTF-8.
    pub(crate) fn of(alloc: Global, field: &[u8]) -> Result<Word, AllocError>
        ensures { IfOk result (λ w. w ≡ word_of_field field.now) }
    {
        let text = String::from_str(alloc, word_of_field(field))?;
        Ok(Word { text })
    }

    /// The word.
    pub fn as_str(&self) -> &str
        ensures { result.now ≡ self.now }
    {
        self.text.as_str()
    }
}

/// A word is printed as it stands.
impl fmt::Display for Word {
    ghost output = { λ w. Some w };

    fn fmt<W: fmt::Write>(&self, f: &mut fmt::Formatter<W>) -> fmt::Result {
        f.write_str(self.as_str())
    }
}
