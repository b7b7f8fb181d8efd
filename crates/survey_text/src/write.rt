// Writing a survey as text.
ghost use Rattle.std.specs.Prelude.{◌≡◌, Ok, IfOk, IfSome, is_some};
ghost use Rattle.survey_text.specs.Texts.{survey_of_text};
ghost use Rattle.survey_text.specs.Written.{survey_text, with_names, is_lawful};

use crate::names::are_lawful;
use crate::rows::{rows_text, survey_rows};
use std::alloc::{AllocError, Global};
use survey::sealed::Sealed;

/// The text of a survey, with these names of its places; none where they are no lawful names for its places. The text
/// reads as the survey with these names.
///
/// The error is want of memory.
pub fn write(
    alloc: Global,
    survey: &Sealed,
    names: &[String],
) -> Result<Option<Vec<u8>>, AllocError>
    ensures lawful { IfOk result (λ r. is_some r ≡ is_lawful (with_names survey.now names.now)) }
    ensures text { IfOk result (λ r. IfSome r (λ t. t.items ≡ survey_text (with_names survey.now names.now))) }
    ensures reads { IfOk result (λ r. IfSome r (λ t. survey_of_text t.items ≡ Ok (with_names survey.now names.now))) }
{
    if !are_lawful(survey.places(), names) {
        return Ok(None);
    }
    let rows = survey_rows(alloc, survey, names)?;
    let text = rows_text(alloc, &rows)?;
    Ok(Some(text))
}
