ghost use Rattle.std.specs.Prelude.{◌≡◌, IfOk, length, vec_len};

use crate::curve::Curve;
use crate::pixel::{Point, Px, Rectangle};
use std::alloc::{AllocError, Global};

// The room that a label takes.
const LABEL_WIDTH: Px = Px(54);

const LABEL_HEIGHT: Px = Px(15);

// Where on its curve a label may be, in sixteenths, the best first.
const MIDDLE: i32 = 8;

const PLACES_ON_CURVE: [i32; 11] = [MIDDLE, 7, 9, 6, 10, 5, 11, 4, 12, 3, 13];

/// The middle of the label of each curve, by their order.
///
/// Each is on its curve, where it covers the fewest labels before it. Fails only for want of memory.
pub fn labels_of(alloc: Global, curves: &[Curve]) -> Result<Vec<Point>, AllocError>
    ensures { IfOk result (λ labels. vec_len labels ≡ length curves.now) }
{
    let mut labels = Vec::new(alloc);
    for curve in curves {
        let label = free_place(*curve, labels.as_slice());
        labels.push(label)?;
    }
    Ok(labels)
}

// The first place on a curve where a label covers the fewest of these.
fn free_place(curve: Curve, labels: &[Point]) -> Point {
    let mut best = curve.point(MIDDLE);
    let mut fewest = usize::MAX;
    for sixteenths in PLACES_ON_CURVE {
        let point = curve.point(sixteenths);
        let covered = labels
            .iter()
            .filter(|label| area(**label).meets(area(point)))
            .count();
        if covered < fewest {
            fewest = covered;
            best = point;
        }
    }
    best
}

// What a label covers that has its middle at this point.
fn area(middle: Point) -> Rectangle {
    Rectangle {
        left: middle.x - LABEL_WIDTH.half(),
        top: middle.y - LABEL_HEIGHT.half(),
        width: LABEL_WIDTH,
        height: LABEL_HEIGHT,
    }
}
