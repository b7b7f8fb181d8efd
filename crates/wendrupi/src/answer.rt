ghost use Rattle.std.specs.Prelude.{◌≡◌, IfOk};
ghost use Rattle.sheet.specs.Refused.{refusal_text};

use sheet::print::print_refusal;
use sheet::refused::Refused;
use std::alloc::Global;

/// Whether something was answered, or refused.
#[derive(Clone, Copy, Debug, PartialEq, Eq)]
pub enum Outcome {
    Answered,
    Refused,
}

/// What a command comes to: the text that is printed, and whether it is an answer.
#[derive(Drop)]
pub struct Answer {
    pub text: Vec<u8>,
    pub outcome: Outcome,
}

impl Answer {
    /// An answer.
    pub fn given(text: Vec<u8>) -> Answer
        ensures { result ≡ record { text = text; outcome = Outcome.Answered } }
    {
        Answer {
            text,
            outcome: Outcome::Answered,
        }
    }

    /// The line of a refusal.
    pub fn refused(alloc: Global, refused: Refused) -> anyhow::Result<Answer>
        ensures text { IfOk result (λ a. a.text.items ≡ refusal_text refused) }
        ensures outcome { IfOk result (λ a. a.outcome ≡ Outcome.Refused) }
    {
        let mut text = Vec::new(alloc);
        print_refusal(&mut text, refused)?;
        Ok(Answer {
            text,
            outcome: Outcome::Refused,
        })
    }

    /// A line that says what is wrong with a text.
    pub fn trouble(line: String) -> Answer {
        Answer {
            text: line.into_bytes(),
            outcome: Outcome::Refused,
        }
    }

    /// A text whose last line may be that of a refusal.
    pub fn of_text(text: Vec<u8>) -> Answer
        ensures { result.text ≡ text }
    {
        let outcome = if is_refused(text.as_slice()) {
            Outcome::Refused
        } else {
            Outcome::Answered
        };
        Answer { text, outcome }
    }

    /// The status of the program: 0 for an answer, and 1 for a refusal.
    pub fn status(&self) -> u8 {
        match self.outcome {
            Outcome::Answered => 0,
            Outcome::Refused => 1,
        }
    }
}

// Whether the last line of a text is that of a refusal.
fn is_refused(text: &[u8]) -> bool {
    let lines = text.strip_suffix(b"\n").unwrap_or(text);
    match lines.rsplit(|byte| *byte == b'\n').next() {
        Some(last) => last.starts_with(b"REFUSED "),
        None => false,
    }
}
