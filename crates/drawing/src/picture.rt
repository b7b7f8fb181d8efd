ghost use Rattle.std.specs.Prelude.{IfOk, string_bytes};
ghost use Rattle.drawing.specs.Documents.{IsDocument, IsNameOf};

use crate::curve::curves_of;
use crate::escape::escape;
use crate::frame::frame_of;
use crate::label::labels_of;
use crate::layer::layers_of;
use crate::mark::Plan;
use crate::pixel::Px;
use crate::port::ports_of;
use crate::row::spots_of;
use std::alloc::{AllocError, Global};
use survey::sealed::Sealed;
use title::push_legend;

mod arrows;
mod boxes;
mod title;

// What is free around the picture.
const MARGIN: Px = Px(30);

/// A picture of a survey, as the text of an SVG document.
///
/// Places are boxes with their number, their name and the price of a repeater in cents, and ways are arrows with their
/// metres and the letter of their cable. A place that has no name is named by its number. The places are in columns
/// from left to right, by how many ways they are from the start of the plan, or from place 0 where there is no plan;
/// those that are not reached are in the last column. The run of the plan is marked, with its repeaters, its start and
/// its end. Fails only for want of memory.
pub fn picture(
    alloc: Global,
    survey: &Sealed,
    names: &[String],
    plan: Option<Plan<'_>>,
) -> Result<String, AllocError>
    ensures { IfOk result (λ text. IsDocument (string_bytes text)) }
{
    let sheet = Sheet {
        alloc,
        survey,
        names,
        plan,
    };
    let body = sheet.body()?;
    let mut out = String::from_str(alloc, "<svg ")?;
    out.push_str(body.as_str())?;
    out.push_str("</svg>\n")?;
    Ok(out)
}

// What is drawn.
#[derive(Clone, Copy)]
struct Sheet<'a> {
    alloc: Global,
    survey: &'a Sealed,
    names: &'a [String],
    plan: Option<Plan<'a>>,
}

impl Sheet<'_> {
    // What the document has between the name of its outermost tag and the end tag.
    fn body(self) -> Result<String, AllocError> {
        let start = self.plan.map_or(0, |plan| plan.request.start);
        let ways = self.survey.all_ways();
        let layers = layers_of(self.alloc, self.survey, start)?;
        let spots = spots_of(self.alloc, layers.as_slice(), ways)?;
        let frame = frame_of(self.alloc, spots.as_slice(), ways, self.names)?;
        let ports = ports_of(self.alloc, frame.tiles.as_slice(), ways)?;
        let curves = curves_of(self.alloc, ports.as_slice())?;
        let labels = labels_of(self.alloc, curves.as_slice())?;
        let mut out = String::new(self.alloc);
        self.push_head(&mut out, &frame)?;
        self.push_ways(&mut out, curves.as_slice(), false)?;
        self.push_ways(&mut out, curves.as_slice(), true)?;
        self.push_labels(&mut out, curves.as_slice(), labels.as_slice())?;
        for tile in frame.tiles.as_slice() {
            self.push_place(&mut out, *tile)?;
        }
        push_legend(&mut out, &frame)?;
        Ok(out)
    }

    // The name of a place, or else its number, as it is written in the document.
    fn name(self, place: usize) -> Result<String, AllocError>
        ensures { IfOk result (λ text. IsNameOf self.entry.names.now place (string_bytes text)) }
    {
        match self.names.get(place) {
            Some(name) => escape(self.alloc, name.as_str()),
            None => format!(in self.alloc; "{place}"),
        }
    }

    // Whether the planned run leads over a way.
    fn is_in_run(self, way: usize) -> bool {
        self.plan.is_some_and(|plan| plan.leads_over(way))
    }
}
