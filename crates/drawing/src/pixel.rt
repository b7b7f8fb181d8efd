ghost use Rattle.std.specs.Prelude.{◌≡◌, ◌+ℤ◌, ◌-ℤ◌, ◌*ℤ◌};
ghost use Rattle.std.specs.Int.{saturate_signed, w32};

use std::fmt;
use std::ops::{Add, Mul, Sub};

/// A length on the page, or a place along an edge of it, in pixels.
///
/// A sum, a difference or a product that is too large is the largest length, and one that is too small the smallest.
#[derive(Clone, Copy, PartialEq, Eq, PartialOrd, Ord)]
pub struct Px(pub i32);

impl Add for Px {
    type Output = Px;

    ghost add_gives = { λ a b sum. sum.0 ≡ saturate_signed w32 (a.0 +ℤ b.0) };

    fn add(self, other: Px) -> Px {
        Px(self.0.saturating_add(other.0))
    }
}

impl Sub for Px {
    type Output = Px;

    ghost sub_gives = { λ a b rest. rest.0 ≡ saturate_signed w32 (a.0 -ℤ b.0) };

    fn sub(self, other: Px) -> Px {
        Px(self.0.saturating_sub(other.0))
    }
}

impl Mul<i32> for Px {
    type Output = Px;

    ghost mul_gives = { λ a times product. product.0 ≡ saturate_signed w32 (a.0 *ℤ times) };

    fn mul(self, times: i32) -> Px {
        Px(self.0.saturating_mul(times))
    }
}

impl fmt::Display for Px {
    fn fmt<W: fmt::Write>(&self, f: &mut fmt::Formatter<W>) -> fmt::Result {
        let pixels = self.0;
        write!(f, "{pixels}")
    }
}

impl Px {
    /// Half of a length.
    pub fn half(self) -> Px {
        Px(self.0 / 2)
    }

    /// A length, shared evenly by so many; nothing where there are none.
    pub fn share(self, many: usize) -> Px {
        let many = counted(many);
        if many > 0 { Px(self.0 / many) } else { Px(0) }
    }

    /// So many sixteenths of the way from here to another place.
    pub fn towards(self, other: Px, sixteenths: i32) -> Px {
        Px(self.0.saturating_add(((other - self) * sixteenths).0 / 16))
    }

    /// How far it is to another place.
    pub fn distance(self, other: Px) -> Px {
        (other - self).max(self - other)
    }
}

/// A count as a number of pixels, or of parts; the largest such number where it is too large.
pub fn counted(count: usize) -> i32 {
    i32::try_from(count).unwrap_or(i32::MAX)
}

/// A point of the page, from its left and its upper edge.
#[derive(Clone, Copy)]
pub struct Point {
    pub x: Px,
    pub y: Px,
}

impl Point {
    /// So many sixteenths of the way from here to another point.
    pub fn towards(self, other: Point, sixteenths: i32) -> Point {
        Point {
            x: self.x.towards(other.x, sixteenths),
            y: self.y.towards(other.y, sixteenths),
        }
    }
}

impl fmt::Display for Point {
    fn fmt<W: fmt::Write>(&self, f: &mut fmt::Formatter<W>) -> fmt::Result {
        write!(f, "{} {}", self.x, self.y)
    }
}

/// A rectangle of the page.
#[derive(Clone, Copy)]
pub struct Rectangle {
    pub left: Px,
    pub top: Px,
    pub width: Px,
    pub height: Px,
}

impl Rectangle {
    /// Its right edge.
    pub fn right(self) -> Px {
        self.left + self.width
    }

    /// Its lower edge.
    pub fn bottom(self) -> Px {
        self.top + self.height
    }

    /// Its middle.
    pub fn middle(self) -> Point {
        Point {
            x: self.left + self.width.half(),
            y: self.top + self.height.half(),
        }
    }

    /// Whether it covers a part of another rectangle.
    pub fn meets(self, other: Rectangle) -> bool {
        self.left < other.right()
            && other.left < self.right()
            && self.top < other.bottom()
            && other.top < self.bottom()
    }
}
