// A rectangle by value: grown, area, least squared distance.
ghost use Rattle.std.specs.Prelude.{◌≡◌, ◌+◌, ◌-◌, ◌*◌};
ghost use Rattle.grid.specs.Place.{PlaceOnGrid, RectOnGrid, rect_grown, area_of, growth_of, longer_axis, sum_on, least_square};

use crate::place::Place;
use axis::span::{Span, beyond};

// Kept: that it is on the grid is asked where it counts, and is no invariant: rule 6 (`same_rect` of rules/specs) compares the rectangles of any words.
#[derive(Clone, Copy, PartialEq, Eq)]
pub struct Rect {
    pub x: Span,
    pub y: Span,
}

#[derive(Clone, Copy, PartialEq, Eq)]
pub enum Axis {
    X,
    Y,
}

impl Rect {
    // The least rectangle that covers both: a new one; the old ones stay.
    pub fn grown(self, other: Rect) -> Rect
        ensures { result ≡ rect_grown self other }
    {
        Rect {
            x: self.x.grown(other.x),
            y: self.y.grown(other.y),
        }
    }

    pub fn area(self) -> u64
        requires { RectOnGrid self }
        ensures { result ≡ area_of self }
    {
        self.x.length() * self.y.length()
    }

    // By how much the area grows when the rectangle is to cover another too.
    pub fn growth(self, other: Rect) -> u64
        requires { RectOnGrid self × RectOnGrid other }
        ensures { result ≡ growth_of self other }
    {
        beyond(self.grown(other).area(), self.area())
    }

    // The longer axis, x if equal.
    pub fn longer(self) -> Axis
        ensures { result ≡ longer_axis self }
    {
        if self.x.length() < self.y.length() {
            Axis::Y
        } else {
            Axis::X
        }
    }

    // Low and high together on an axis.
    pub fn sum_on(self, axis: Axis) -> u64
        requires { RectOnGrid self }
        ensures { result ≡ sum_on axis self }
    {
        match axis {
            Axis::X => self.x.sum(),
            Axis::Y => self.y.sum(),
        }
    }

    // The least squared distance from q to a place of the rectangle.
    pub fn least_square(self, q: Place) -> u64
        requires { RectOnGrid self × PlaceOnGrid q }
        ensures { result ≡ least_square self q }
    {
        self.x.gap_square(q.x) + self.y.gap_square(q.y)
    }
}
