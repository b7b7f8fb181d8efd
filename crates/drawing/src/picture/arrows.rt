// The ways of the picture, and their labels.
use super::Sheet;
use crate::curve::Curve;
use crate::pixel::{Point, Px};
use std::alloc::AllocError;
use survey::entry::WayEntry;

impl Sheet<'_> {
    // The curves of the ways that are in the run, or of those that are not.
    pub(super) fn push_ways(
        self,
        out: &mut String,
        curves: &[Curve],
        in_run: bool,
    ) -> Result<(), AllocError> {
        for curve in curves {
            if self.is_in_run(curve.way) == in_run {
                let class = if in_run { "run" } else { "way" };
                write!(
                    out,
                    "<path class=\"{class}\" d=\"{}\" marker-end=\"url(#{class}-tip)\"/>\n",
                    *curve
                )?;
            }
        }
        Ok(())
    }

    // The labels of all ways.
    pub(super) fn push_labels(
        self,
        out: &mut String,
        curves: &[Curve],
        labels: &[Point],
    ) -> Result<(), AllocError> {
        for (curve, label) in curves.iter().zip(labels) {
            if let Some(way) = self.survey.way(curve.way) {
                self.push_label(out, curve.way, way, *label)?;
            }
        }
        Ok(())
    }

    // The label of a way, and what a reader is shown who points at it.
    fn push_label(
        self,
        out: &mut String,
        number: usize,
        way: WayEntry,
        middle: Point,
    ) -> Result<(), AllocError> {
        let class = if self.is_in_run(number) {
            "label run-label"
        } else {
            "label"
        };
        let x = middle.x;
        let y = middle.y + Px(4);
        let metres = way.metres;
        let letter = way.letter;
        let from = self.name(way.from as usize)?;
        let to = self.name(way.to as usize)?;
        write!(
            out,
            "<text class=\"{class}\" x=\"{x}\" y=\"{y}\"><title>way {number}, "
        )?;
        write!(
            out,
            "from {from} to {to}, grade {}, {} cents</title>",
            way.grade, way.price
        )?;
        write!(out, "{metres} m {letter}</text>\n")
    }
}
