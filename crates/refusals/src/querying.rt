// When a query on a table that passes the check is refused, by what it asks and by its candidate list: 4, 5, 9.
ghost use Rattle.std.specs.Prelude.{◌≡◌, length};
ghost use Rattle.words.specs.Word.{nat_of};
ghost use Rattle.rules.specs.Rules.{Passes};
ghost use Rattle.filter.specs.Query.{answers_found};
ghost use Rattle.refusals.specs.Refusals.{query_gives};

use figures::Words;
use grid::site::Site;
use table::given::{Given, Refusal};
use table::slot;

// What a query gives on a table that passes the check if its answer list has room for all answers: 4, 5, 9.
pub fn query_given(table: &Words, q: Site, k: i32, room: usize) -> Given
    requires { Passes table.now }
    ensures { result ≡ query_gives table.now q k room (length (answers_found table.now q (nat_of k))) }
{
    if limits::off_grid(q) {
        return Err(Refusal::OffGrid);
    }
    if limits::no_such_k(k) {
        return Err(Refusal::NoSuchK);
    }
    if room < slot::points_of(table) {
        return Err(Refusal::FewCandidates);
    }
    Ok(())
}
