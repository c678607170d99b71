// The turn of a point: it is discarded, or noted as the next candidate.
ghost use Rattle.std.specs.Prelude.{◌≡◌, true};
ghost use Rattle.table.specs.Stations.{is_point};
ghost use Rattle.filter.specs.Walk.{spot_in, visited};
ghost use Rattle.filter.specs.Rows.{rows_of, Ready, Went, SameLent};

use crate::rows::Rows;
use crate::seen::Seen;
use grid::place::Place;
use table::node::Entry;

// Kept: that an entry is a point is asked where it counts, and is no invariant of Entry: above the leaves an entry is none.
// The place of a leaf's entry.
pub fn spot_in(e: Entry) -> Place
    ensures { result ≡ spot_in e }
{
    Place {
        x: e.rect.x.low,
        y: e.rect.y.low,
    }
}

// A point is discarded, or becomes the next candidate.
pub fn visit(e: Entry, q: Place, k: usize, rows: &mut Rows<'_>, seen: Seen) -> Seen
    requires { (is_point e ≡ true) × Ready q (visited q k e) (rows_of rows.old) seen }
    ensures went { Went q (visited q k e) (rows_of rows.old) seen (rows_of rows.new) result }
    ensures lent { SameLent rows.old rows.new }
{
    let at = seen.candidates;
    let near = rows.leads().as_near(at, spot_in(e), q);
    if k <= near {
        return seen;
    }
    rows.note(at, e, q);
    Seen {
        candidates: at + 1,
        ..seen
    }
}
