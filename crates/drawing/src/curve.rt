use crate::pixel::{Point, Px};
use crate::port::{Port, Side};
use std::alloc::{AllocError, Global};
use std::fmt;

// How far a curve within a column leads away from it: at least so far, for a short way by half of its distance more, and
// for a long one by an eighth.
const LEAST_BULGE: Px = Px(40);

const SHORT_WAY: Px = Px(160);

/// A way as a curve: its two ends, and the points to which it leads first and from which it arrives.
#[derive(Clone, Copy)]
pub struct Curve {
    pub way: usize,
    pub start: Point,
    pub start_bend: Point,
    pub end_bend: Point,
    pub end: Point,
}

/// The curves of all ways, by the ports of their ends.
///
/// Fails only for want of memory.
pub fn curves_of(alloc: Global, ports: &[Port]) -> Result<Vec<Curve>, AllocError> {
    let mut curves = Vec::new(alloc);
    for pair in ports.chunks_exact(2) {
        if let [start, end] = pair {
            curves.push(curve_of(*start, *end))?;
        }
    }
    Ok(curves)
}

// The curve between two ports.
fn curve_of(start: Port, end: Port) -> Curve {
    let reach = if start.side == end.side {
        let distance = start.at.y.distance(end.at.y);
        LEAST_BULGE + distance.min(SHORT_WAY).half() + distance.share(8)
    } else {
        start.at.x.distance(end.at.x).half()
    };
    Curve {
        way: start.way,
        start: start.at,
        start_bend: bend(start, reach),
        end_bend: bend(end, reach),
        end: end.at,
    }
}

// The point that is straight before a port, so far away.
fn bend(port: Port, reach: Px) -> Point {
    let x = match port.side {
        Side::Left => port.at.x - reach,
        Side::Right => port.at.x + reach,
    };
    Point { x, y: port.at.y }
}

impl Curve {
    /// The point of the curve at so many sixteenths of its time: a curve of Bézier, of degree three.
    pub fn point(self, sixteenths: i32) -> Point {
        let first = self.start.towards(self.start_bend, sixteenths);
        let middle = self.start_bend.towards(self.end_bend, sixteenths);
        let last = self.end_bend.towards(self.end, sixteenths);
        let before = first.towards(middle, sixteenths);
        let behind = middle.towards(last, sixteenths);
        before.towards(behind, sixteenths)
    }
}

/// The curve as the path of an SVG document.
impl fmt::Display for Curve {
    fn fmt<W: fmt::Write>(&self, f: &mut fmt::Formatter<W>) -> fmt::Result {
        write!(
            f,
            "M {} C {}, {}, {}",
            self.start, self.start_bend, self.end_bend, self.end
        )
    }
}
