// The places of the picture, with what is marked there.
use super::Sheet;
use crate::frame::Tile;
use crate::pixel::{Point, Px};
use std::alloc::AllocError;

impl Sheet<'_> {
    // The box of a place, with what is marked there.
    pub(super) fn push_place(self, out: &mut String, tile: Tile) -> Result<(), AllocError> {
        let class = if self.is_on_run(tile.place) {
            "run-place"
        } else {
            "place"
        };
        let area = tile.area;
        write!(
            out,
            "<rect class=\"{class}\" x=\"{}\" y=\"{}\" width=\"{}\" height=\"{}\" rx=\"7\"/>\n",
            area.left, area.top, area.width, area.height
        )?;
        self.push_texts(out, tile)?;
        self.push_tags(out, tile)
    }

    // Whether the planned run starts at a place, or leads to it.
    fn is_on_run(self, place: usize) -> bool {
        let Some(plan) = self.plan else {
            return false;
        };
        place == plan.request.start
            || place == plan.request.end
            || plan.arrives_at(self.survey, place)
    }

    // The name of a place, and the price of a repeater there, if there is one.
    fn push_texts(self, out: &mut String, tile: Tile) -> Result<(), AllocError> {
        let middle = tile.area.middle();
        let x = middle.x;
        let place = tile.place;
        let price = self.survey.place(place).and_then(|place| place.repeater);
        let name = self.name(place)?;
        let y = if price.is_some() {
            middle.y - Px(3)
        } else {
            middle.y + Px(5)
        };
        write!(out, "<text class=\"name\" x=\"{x}\" y=\"{y}\">")?;
        if place < self.names.len() {
            write!(out, "<tspan class=\"number\">{place}</tspan> ")?;
        }
        write!(out, "{name}</text>\n")?;
        if let Some(price) = price {
            let y = middle.y + Px(14);
            write!(
                out,
                "<text class=\"price\" x=\"{x}\" y=\"{y}\">repeater {price}</text>\n"
            )?;
        }
        Ok(())
    }

    // The start, the end and the repeaters of the planned run, at the upper edge of a box.
    fn push_tags(self, out: &mut String, tile: Tile) -> Result<(), AllocError> {
        let Some(plan) = self.plan else {
            return Ok(());
        };
        let left = tile.area.left;
        let y = tile.area.top;
        if tile.place == plan.request.start {
            push_tag(out, Point { x: left + Px(4), y }, "START")?;
        }
        if tile.place == plan.request.end {
            push_tag(
                out,
                Point {
                    x: tile.area.right() - Px(52),
                    y,
                },
                "END",
            )?;
        }
        if plan.has_repeater(self.survey, tile.place) {
            let x = tile.area.middle().x;
            let below = tile.area.bottom();
            let text = below + Px(4);
            write!(
                out,
                "<circle class=\"repeater\" cx=\"{x}\" cy=\"{below}\" r=\"10\"/>\n"
            )?;
            write!(
                out,
                "<text class=\"tag-text\" x=\"{x}\" y=\"{text}\">R</text>\n"
            )?;
        }
        Ok(())
    }
}

// A tag with a short word, over the point.
fn push_tag(out: &mut String, at: Point, word: &str) -> Result<(), AllocError> {
    let x = at.x;
    let top = at.y - Px(12);
    let middle = at.x + Px(24);
    let base = at.y;
    write!(
        out,
        "<rect class=\"tag\" x=\"{x}\" y=\"{top}\" width=\"48\" height=\"16\" rx=\"4\"/>\n"
    )?;
    write!(
        out,
        "<text class=\"tag-text\" x=\"{middle}\" y=\"{base}\">{word}</text>\n"
    )
}
