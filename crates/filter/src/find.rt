// The whole walk of a query.
ghost use Rattle.std.specs.Prelude.{◌≡◌, true};
ghost use Rattle.words.specs.Word.{on_grid};
ghost use Rattle.grid.specs.Site.{place_of};
ghost use Rattle.table.specs.Words.{points_of};
ghost use Rattle.rules.specs.Rules.{Passing};
ghost use Rattle.filter.specs.Query.{found};
ghost use Rattle.filter.specs.Rows.{rows_of, Noted, Room, SameLent};

use crate::rows::Rows;
use crate::seen::Seen;
use crate::walk::walk;
use figures::Words;
use grid::place::Place;
use grid::site::Site;
use table::slot::{level_at, points_of, root_of};

// From the root down; the empty table has no root to open.
pub fn find(table: &Words, q: Site, k: usize, rows: &mut Rows<'_>) -> Seen
    requires passing { Passing table.now }
    requires q_value { (on_grid q.x ≡ true) × (on_grid q.y ≡ true) }
    requires room { Room (points_of table.now) (rows_of rows.old) }
    ensures noted { Noted (place_of q) (found table.now q k)
        (rows_of rows.old)
        (rows_of rows.new) result }
    ensures lent { SameLent rows.old rows.new }
{
    let none = Seen::none();
    if points_of(table) == 0 {
        return none;
    }
    let place = Place::from(q);
    let root = root_of(table);
    let level = level_at(table, root);
    walk(table, root, level, place, k, rows, none)
}
