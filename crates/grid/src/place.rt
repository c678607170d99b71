// A place on the grid, its distance to another, and the one word that decides what is as near.
ghost use Rattle.std.specs.Prelude.{◌≡◌};
ghost use Rattle.grid.specs.Place.{PlaceOnGrid, dist², spot_of};
ghost use Rattle.grid.specs.AsNear.{as_near};

use crate::rect::Rect;
use axis::span::{Span, square};

// Kept: that a place is on the grid is asked where it counts, and is no invariant: `place_of` of specs/Site.antt, which demand 2 cites, makes a place of any two words.
#[derive(Clone, Copy, PartialEq, Eq)]
pub struct Place {
    pub x: u64,
    pub y: u64,
}

// Whether a holder at squared distance d is as near as one at e, or nearer.
pub fn is_as_near(d: u64, e: u64) -> bool
    ensures { result ≡ as_near d e }
{
    d <= e
}

impl Place {
    // The squared straight-line distance.
    pub fn square_to(self, other: Place) -> u64
        requires { PlaceOnGrid self × PlaceOnGrid other }
        ensures { result ≡ dist² self other }
    {
        square(self.x, other.x) + square(self.y, other.y)
    }

    // The rectangle that is this place alone.
    pub fn spot(self) -> Rect
        ensures { result ≡ spot_of self }
    {
        Rect {
            x: Span {
                low: self.x,
                high: self.x,
            },
            y: Span {
                low: self.y,
                high: self.y,
            },
        }
    }
}
