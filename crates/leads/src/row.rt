// A candidate in the rows: relative to q, and back.
ghost use Rattle.std.specs.Prelude.{◌≡◌, ◌+◌, ◌*◌, ◌<◌, length};
ghost use Rattle.axis.specs.Axis.{OnGrid};
ghost use Rattle.grid.specs.Place.{PlaceOnGrid};
ghost use Rattle.leads.specs.Leads.{from_q, back_to, place_in, bar_of};

use grid::place::Place;

// How far a coordinate is moved up, so that none is below nothing: 2²¹. No two on the grid lie further apart.
pub(crate) const UP: u64 = 2097152;

// A coordinate relative to q's.
pub fn from_q(a: u64, q: u64) -> u64
    requires { OnGrid a × OnGrid q }
    ensures { result ≡ from_q a q }
{
    a + UP - q
}

// And back.
fn back(x: u64, q: u64) -> u64
    requires { OnGrid (back_to x q) × OnGrid q }
    ensures { result ≡ back_to x q }
{
    x + q - UP
}

// A query's candidates, relative to its place: the x and the y of each, and its bar.
// Kept: three rows and no row of records: the two counts over them become vector code (speed, count.rt).
// How many stand in them is asked beside: they are lent with room for all, and `Standing` of specs/Leads.antt counts the first m of them (what may not change).
#[derive(Clone, Copy)]
pub struct Leads<'a> {
    pub xs: &'a [u64],
    pub ys: &'a [u64],
    pub bars: &'a [u64],
}

impl Leads<'_> {
    // The place of candidate i.
    pub fn place_at(self, i: usize, q: Place) -> Place
        requires { (i < length self.xs.now) × (i < length self.ys.now) × PlaceOnGrid q × PlaceOnGrid (place_in q self.xs.now self.ys.now i) }
        ensures { result ≡ place_in q self.entry.xs.now self.entry.ys.now i }
    {
        Place {
            x: back(self.xs[i], q.x),
            y: back(self.ys[i], q.y),
        }
    }
}

// The bar of a candidate, which the sum of a place has to reach.
pub fn bar(q: Place, c: Place) -> u64
    requires { PlaceOnGrid q × PlaceOnGrid c }
    ensures { result ≡ bar_of q c }
{
    q.square_to(c) + 2 * UP * (from_q(c.x, q.x) + from_q(c.y, q.y))
}
