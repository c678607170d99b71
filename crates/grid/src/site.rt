// The place that a call is asked with, as the two words that come in. Inside, places are in steps.
ghost use Rattle.std.specs.Prelude.{◌≡◌};
ghost use Rattle.grid.specs.Site.{place_of};

use crate::place::Place;
use words::border::steps;

#[derive(Clone, Copy, PartialEq, Eq)]
pub struct Site {
    pub x: i32,
    pub y: i32,
}

impl From<Site> for Place {
    ghost from_gives = { λ s p. p ≡ place_of s };

    fn from(site: Site) -> Place {
        Place {
            x: steps(site.x),
            y: steps(site.y),
        }
    }
}
