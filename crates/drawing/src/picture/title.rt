// The start of the document, with the title, and the end, with the legend.
use super::{MARGIN, Sheet};
use crate::frame::Frame;
use crate::page::{Amount, HEAD, LEGEND, Loss};
use crate::pixel::Px;
use std::alloc::AllocError;

// What is free above the picture for the title, and below it for the legend.
const TITLE_HEIGHT: Px = Px(110);

const LEGEND_HEIGHT: Px = Px(116);

// The least width of a page, for the title and the legend.
const LEAST_PAGE: Px = Px(860);

impl Sheet<'_> {
    // The start of the document, and the title.
    pub(super) fn push_head(self, out: &mut String, frame: &Frame) -> Result<(), AllocError> {
        let width = LEAST_PAGE.max(frame.width + MARGIN * 2);
        let height = frame.height + TITLE_HEIGHT + LEGEND_HEIGHT;
        write!(
            out,
            "xmlns=\"http://www.w3.org/2000/svg\" width=\"{width}\" height=\"{height}\" \
             viewBox=\"0 0 {width} {height}\" font-family=\"sans-serif\">\n"
        )?;
        out.push_str(HEAD)?;
        write!(
            out,
            "<rect width=\"{width}\" height=\"{height}\" fill=\"white\"/>\n"
        )?;
        let places = Amount {
            count: self.survey.places() as u64,
            thing: "place",
        };
        let ways = Amount {
            count: self.survey.ways() as u64,
            thing: "way",
        };
        write!(
            out,
            "<text class=\"title\" x=\"{MARGIN}\" y=\"40\">Survey of {places} and {ways}</text>\n"
        )?;
        self.push_plan(out)?;
        write!(
            out,
            "<g transform=\"translate({MARGIN} {TITLE_HEIGHT})\">\n"
        )
    }

    // What was planned, in words.
    fn push_plan(self, out: &mut String) -> Result<(), AllocError> {
        let Some(plan) = self.plan else {
            return Ok(());
        };
        let start = self.name(plan.request.start)?;
        let end = self.name(plan.request.end)?;
        let bound = Loss(plan.request.bound);
        write!(out, "<text class=\"note\" x=\"{MARGIN}\" y=\"62\">")?;
        match plan.run {
            None => write!(out, "No run from {start} to {end} within {bound}")?,
            Some(steps) => {
                let ways = Amount {
                    count: steps.len() as u64,
                    thing: "way",
                };
                let metres = plan.metres(self.survey);
                let repeaters = Amount {
                    count: plan.repeaters() as u64,
                    thing: "repeater",
                };
                write!(
                    out,
                    "Run from {start} to {end} within {bound}: {ways}, {metres} m, {repeaters}"
                )?;
            }
        }
        out.push_str("</text>\n")
    }
}

// The legend, and the end of what is moved by the margin.
pub(super) fn push_legend(out: &mut String, frame: &Frame) -> Result<(), AllocError> {
    let below = frame.height + MARGIN * 2;
    write!(
        out,
        "<g transform=\"translate(0 {below})\">\n{LEGEND}</g>\n</g>\n"
    )
}
