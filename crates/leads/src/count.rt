// How many of the candidates are as near to a place as q is, or to all corners of a box.
// Both counts are one test, of a place and of a worst corner, in a form that becomes vector code on the plain target: naturals, factors of 32 bits, no comparison.
ghost use Rattle.std.specs.Prelude.{◌≡◌, ◌+◌, ◌≤◌, ◌<◌};
ghost use Rattle.grid.specs.Place.{PlaceOnGrid, Upright};
ghost use Rattle.grid.specs.AsNear.{as_near_to, corners_as_near};
ghost use Rattle.order.specs.Lists.{one, count};
ghost use Rattle.order.specs.Order.{up_from};
ghost use Rattle.leads.specs.Leads.{reaches_bar, end_for, place_in, Standing};

use crate::row::{Leads, UP, from_q};
use grid::place::Place;
use grid::rect::Rect;

// The values of 32 bits. A remainder by it changes nothing here: it shows the compiler that a factor has 32 bits.
const FACTOR: u64 = 4294967296;

// The top bit of a word.
const TOP: u64 = 9223372036854775808;

// The top bit, and 2⁴⁴: what both products have too much, each coordinate being moved up.
const ROOM: u64 = TOP + 17592186044416;

// 1 if the sum of a place reaches the bar of a candidate, else 0. With the room, and the bar taken off, the sum has its top bit exactly then.
fn reaches(x: u64, y: u64, bar: u64, px: u64, py: u64) -> usize
    requires { (x < 4194304) × (y < 4194304) × (bar ≤ 70368744177664) × (px < 8388608) × (py < 8388608) }
    ensures { result ≡ one (reaches_bar x y bar px py) }
{
    let room = ROOM - UP * (px + py);
    let sum = (x % FACTOR) * (px % FACTOR) + (y % FACTOR) * (py % FACTOR);
    ((sum + room - bar) / TOP) as usize
}

// No axis is wider, in a place's form: 2²³ - 1.
const WIDEST: u64 = 8388607;

// The end of an axis that counts for a candidate at x. The mask is all bits of WIDEST if x lies below q, else none of them: no branch, and no product.
fn worst_end(x: u64, low: u64, wide: u64) -> u64
    requires { (x < 4194304) × (low + wide < 8388608) }
    ensures { result ≡ end_for x low wide }
{
    low + (wide & (WIDEST + x / UP))
}

impl Leads<'_> {
    // How many of the first m candidates are as near to p as q is, or nearer. It counts them all: to stop at k costs a branch in each turn.
    pub fn as_near(self, m: usize, p: Place, q: Place) -> usize
        requires { Standing q self.xs.now self.ys.now self.bars.now m × PlaceOnGrid p × PlaceOnGrid q }
        ensures { result ≡ count (λ i. as_near_to p (place_in q self.entry.xs.now self.entry.ys.now i) q) (up_from 0 m) }
    {
        let px = 2 * from_q(p.x, q.x);
        let py = 2 * from_q(p.y, q.y);
        let mut n = 0;
        for i in 0..m {
            n += reaches(self.xs[i], self.ys[i], self.bars[i], px, py);
        }
        n
    }

    // For how many of them all four corners of the box are as near to that candidate as to q, or nearer: at its worst corner all four are tested.
    pub fn all_as_near(self, m: usize, r: Rect, q: Place) -> usize
        requires { Standing q self.xs.now self.ys.now self.bars.now m × Upright r × PlaceOnGrid q }
        ensures { result ≡ count (λ i. corners_as_near r (place_in q self.entry.xs.now self.entry.ys.now i) q) (up_from 0 m) }
    {
        let low_x = 2 * from_q(r.x.low, q.x);
        let low_y = 2 * from_q(r.y.low, q.y);
        let wide_x = 2 * (r.x.high - r.x.low);
        let wide_y = 2 * (r.y.high - r.y.low);
        let mut n = 0;
        for i in 0..m {
            let px = worst_end(self.xs[i], low_x, wide_x);
            let py = worst_end(self.ys[i], low_y, wide_y);
            n += reaches(self.xs[i], self.ys[i], self.bars[i], px, py);
        }
        n
    }
}
