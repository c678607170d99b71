// When an enrolment on a table that passes the check is refused: 3, 4, 6, 7.
ghost use Rattle.std.specs.Prelude.{◌≡◌};
ghost use Rattle.rules.specs.Rules.{Passes};
ghost use Rattle.refusals.specs.Refusals.{enrol_gives};

use crate::refuse;
use figures::Words;
use grid::site::Site;
use table::given::{Given, Refusal};

// What an enrolment gives on a table that passes the check: 3, 4, 6, 7.
pub fn enrol_given(table: &Words, number: i32, site: Site) -> Given
    requires { Passes table.now }
    ensures { result ≡ enrol_gives table.now number site }
{
    if limits::no_such_number(number) {
        return Err(Refusal::NoSuchNumber);
    }
    if limits::off_grid(site) {
        return Err(Refusal::OffGrid);
    }
    if refuse::is_enrolled(table, number) {
        return Err(Refusal::AlreadyEnrolled);
    }
    if refuse::is_full(table) {
        return Err(Refusal::Full);
    }
    Ok(())
}
