// The way down: which entry takes a newcomer.
ghost use Rattle.std.specs.Prelude.{◌≡◌, ◌<◌};
ghost use Rattle.grid.specs.Place.{RectOnGrid};
ghost use Rattle.order.specs.Lists.{All};
ghost use Rattle.table.specs.Page.{held};
ghost use Rattle.change.specs.Choose.{better, takes_before, chosen};

use grid::rect::Rect;
use table::node::Node;

// Whether growth g and area a are chosen before growth h and area b.
pub fn is_better(g: u64, a: u64, h: u64, b: u64) -> bool
    ensures { result ≡ better g a h b }
{
    (g, a) < (h, b)
}

// Whether rectangle r takes the newcomer before rectangle s.
fn takes_before(new: Rect, r: Rect, s: Rect) -> bool
    requires { RectOnGrid new × RectOnGrid r × RectOnGrid s }
    ensures { result ≡ takes_before new r s }
{
    is_better(r.growth(new), r.area(), s.growth(new), s.area())
}

// Kept: that the boxes of a node are on the grid is asked here and in share, and is no invariant of Node: `page_of` of table/specs reads nodes of any words.
// The place of the entry that takes the newcomer; of equal ones the lowest, so a later one must be better.
pub fn choose(n: Node, new: Rect) -> usize
    requires { (0 < n.count) × RectOnGrid new × All (λ e. RectOnGrid e.rect) (held n) }
    ensures { result ≡ chosen new (held n) }
{
    let mut best = 0;
    for k in 1..n.count {
        if takes_before(new, n.entries[k].rect, n.entries[best].rect) {
            best = k;
        }
    }
    best
}
