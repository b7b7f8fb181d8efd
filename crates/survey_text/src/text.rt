// A survey that is read from text or written to it.
ghost use Rattle.std.specs.Prelude.{◌≡◌, IfOk, length, vec_len};
ghost use Rattle.survey.specs.Contents.{contents};

use std::alloc::{AllocError, Global};
use survey::draft::Draft;

/// A survey with the names of its places, by their numbers.
#[derive(Drop)]
pub struct SurveyText {
    pub draft: Draft,
    pub names: Vec<String>,
    ghost all_named: { vec_len names ≡ length (contents draft).places },
}

impl SurveyText {
    ghost use Rattle.survey_text.specs.Texts.{named_contents, nothing_read};

    /// A survey in which nothing is entered.
    pub(crate) fn new(alloc: Global) -> Result<SurveyText, AllocError>
        ensures { IfOk result (λ t. named_contents t ≡ nothing_read.so_far) }
    {
        let draft = Draft::new(alloc)?;
        let names = Vec::new(alloc);
        Ok(SurveyText { draft, names })
    }
}
