// When a withdrawal on a table that passes the check is refused: 3, 8.
ghost use Rattle.std.specs.Prelude.{◌≡◌};
ghost use Rattle.rules.specs.Rules.{Passes};
ghost use Rattle.refusals.specs.Refusals.{withdraw_gives};

use crate::refuse;
use figures::Words;
use table::given::{Given, Refusal};

// What a withdrawal gives on a table that passes the check: 3, 8.
pub fn withdraw_given(table: &Words, number: i32) -> Given
    requires { Passes table.now }
    ensures { result ≡ withdraw_gives table.now number }
{
    if limits::no_such_number(number) {
        return Err(Refusal::NoSuchNumber);
    }
    if !refuse::is_enrolled(table, number) {
        return Err(Refusal::NotEnrolled);
    }
    Ok(())
}
