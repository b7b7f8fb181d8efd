ghost use Rattle.std.specs.Prelude.{◌≡◌, Ok, Err, IfOk, IfErr, true};
ghost use Rattle.survey_file.specs.Decode.{decode};
ghost use Rattle.survey_text.specs.Written.{is_lawful};
ghost use Rattle.survey_text.specs.Texts.{survey_of_text};
ghost use Rattle.wendrupi.specs.Inputs.{is_survey_file, said_by_file, said_by_text, survey_of, named_contents};

use crate::answer::Answer;
use sheet::refused::Refused;
use std::alloc::{AllocError, Global};
use subject::refusal::Fault;
use survey::draft::Draft;
use survey::sealed::Sealed;
use survey_file::reader::FileReader;
use survey_text::names::number_names;
use survey_text::read::read;
use survey_text::trouble::Trouble;

/// A survey with the names of its places, by their numbers.
#[derive(Drop)]
pub struct NamedSurvey {
    pub survey: Sealed,
    pub names: Vec<String>,
}

/// Why bytes are no survey: the fault of a survey file, or the trouble of a text.
#[derive(Debug, Drop)]
pub enum Unread {
    File(Fault),
    Text(Trouble),
}

/// Whether bytes begin as a survey file does, with its head field.
pub fn is_survey_file(bytes: &[u8]) -> bool
    ensures { result ≡ is_survey_file bytes.now }
{
    bytes.starts_with(&[1, 0, 2])
}

// The survey of a survey file, whose places have their numbers as names.
fn survey_of_file(alloc: Global, bytes: &[u8]) -> Result<Result<NamedSurvey, Unread>, AllocError>
    ensures ok { IfOk result (λ r. IfOk r (λ s. said_by_file (decode bytes.now) ≡ Ok (named_contents s))) }
    ensures lawful { IfOk result (λ r. IfOk r (λ s. is_lawful (named_contents s) ≡ true)) }
    ensures err { IfOk result (λ r. IfErr r (λ u. said_by_file (decode bytes.now) ≡ Err u)) }
{
    let mut reader = FileReader::new(alloc)?;
    let mut draft = Draft::new(alloc)?;
    match reader.read(bytes, &mut draft) {
        Ok(()) => {
            let survey = draft.seal();
            let names = number_names(alloc, survey.places())?;
            Ok(Ok(NamedSurvey { survey, names }))
        }
        Err(fault) => Ok(Err(Unread::File(fault))),
    }
}

// The survey of a text.
fn survey_of_text(alloc: Global, bytes: &[u8]) -> Result<Result<NamedSurvey, Unread>, AllocError>
    ensures ok { IfOk result (λ r. IfOk r (λ s. said_by_text (survey_of_text bytes.now) ≡ Ok (named_contents s))) }
    ensures lawful { IfOk result (λ r. IfOk r (λ s. is_lawful (named_contents s) ≡ true)) }
    ensures err { IfOk result (λ r. IfErr r (λ u. said_by_text (survey_of_text bytes.now) ≡ Err u)) }
{
    match read(alloc, bytes)? {
        Ok(text) => Ok(Ok(NamedSurvey {
            survey: text.draft.seal(),
            names: text.names,
        })),
        Err(trouble) => Ok(Err(Unread::Text(trouble))),
    }
}

/// The survey of a survey file or of a text, which are told apart by their first bytes.
///
/// The outer error is want of memory.
pub fn read_survey(alloc: Global, bytes: &[u8]) -> Result<Result<NamedSurvey, Unread>, AllocError>
    ensures ok { IfOk result (λ r. IfOk r (λ s. survey_of bytes.now ≡ Ok (named_contents s))) }
    ensures lawful { IfOk result (λ r. IfOk r (λ s. is_lawful (named_contents s) ≡ true)) }
    ensures err { IfOk result (λ r. IfErr r (λ u. survey_of bytes.now ≡ Err u)) }
{
    if is_survey_file(bytes) {
        survey_of_file(alloc, bytes)
    } else {
        survey_of_text(alloc, bytes)
    }
}

impl Unread {
    /// What is printed of it, where the survey was read from the file of this name.
    pub fn answer(&self, alloc: Global, name: &str) -> anyhow::Result<Answer> {
        match self {
            Unread::File(fault) => Answer::refused(alloc, Refused::File(*fault)),
            Unread::Text(trouble) => {
                let line = format!(in alloc; "{name}: {trouble}\n")?;
                Ok(Answer::trouble(line))
            }
        }
    }
}
