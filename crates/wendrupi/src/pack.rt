ghost use Rattle.std.specs.Prelude.{◌≡◌, Ok, IfOk};
ghost use Rattle.survey.specs.Sealing.{sealed_contents};
ghost use Rattle.survey_file.specs.Decode.{decode};
ghost use Rattle.survey_file.specs.Encode.{file_of};
ghost use Rattle.survey_text.specs.Texts.{survey_of_text};
ghost use Rattle.survey_text.specs.Written.{survey_text};
ghost use Rattle.wendrupi.specs.Inputs.{named_contents};

use crate::input::NamedSurvey;
use std::alloc::Global;
use survey::sealed::Sealed;
use survey_file::writer;
use survey_text::write;

/// The survey file of a survey.
pub fn packed(alloc: Global, survey: &Sealed) -> anyhow::Result<Vec<u8>>
    ensures file { IfOk result (λ file. file.items ≡ file_of (sealed_contents survey.now)) }
    ensures reads { IfOk result (λ file. decode file.items ≡ Ok (sealed_contents survey.now)) }
{
    let mut file = vec![in alloc; 0u8; writer::file_length(survey)]?;
    match writer::write(survey, &mut file) {
        Ok(_) => Ok(file),
        Err(refusal) => anyhow::bail!("the file is refused: {refusal}"),
    }
}

/// The text of a survey with the names of its places.
pub fn shown(alloc: Global, input: &NamedSurvey) -> anyhow::Result<Vec<u8>>
    ensures text { IfOk result (λ text. text.items ≡ survey_text (named_contents input.now)) }
    ensures reads { IfOk result (λ text. survey_of_text text.items ≡ Ok (named_contents input.now)) }
{
    match write::write(alloc, &input.survey, &input.names)? {
        Some(text) => Ok(text),
        None => anyhow::bail!("the names are no names of places"),
    }
}
