// More than eight entries in the order in which two nodes share them.
ghost use Rattle.std.specs.Prelude.{◌≡◌, map, ◌<◌, take};
ghost use Rattle.grid.specs.Place.{RectOnGrid, sum_on};
ghost use Rattle.order.specs.Lists.{All};
ghost use Rattle.order.specs.Order.{pick, key_in, Marks};
ghost use Rattle.table.specs.Page.{page, held, Shows, blank_entry};
ghost use Rattle.change.specs.Share.{lined as lined_of};

use grid::rect::Axis;
use order::in_order;
use table::node::Node;

// What the entries are ordered by: low + high on the axis, each with its place.
fn marks_on(n: Node, axis: Axis) -> [u64; order::MOST]
    requires { All (λ e. RectOnGrid e.rect) (held n) }
    ensures marks { Marks n.count result }
    ensures sums { map key_in (take n.count result) ≡ map (λ e. sum_on axis e.rect) (held n) }
{
    let mut marks = [order::NONE; order::MOST];
    for (k, e) in n.held().iter().enumerate() {
        marks[k] = order::mark(e.rect.sum_on(axis), k);
    }
    marks
}

// The entries as the row has their places.
fn placed_by(n: Node, row: [usize; order::MOST]) -> Node
    requires { All (λ i. i < 10) row }
    ensures { Shows result (page n.level (pick n.entries blank_entry (take n.count row))) }
{
    let mut entries = n.entries;
    for k in 0..n.count {
        entries[k] = n.entries[row[k]];
    }
    Node {
        level: n.level,
        count: n.count,
        entries,
    }
}

// By low + high on the axis where the covering box is longer; ties keep their order.
pub fn lined(n: Node) -> Node
    requires { All (λ e. RectOnGrid e.rect) (held n) }
    ensures { Shows result (page n.level (lined_of (held n))) }
{
    let axis = n.cover().longer();
    let marks = marks_on(n, axis);
    let row = in_order(&marks, n.count);
    placed_by(n, row)
}
