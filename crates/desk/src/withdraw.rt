// Withdrawal, with its refusals in document 01's order: 1, 2, 3, 8.
ghost use Rattle.std.specs.Prelude.{◌≡◌};
ghost use Rattle.rules.specs.Rules.{Passes};
ghost use Rattle.refusals.specs.Refusals.{withdraw_gives};
ghost use Rattle.desk.specs.Calls.{after_withdraw};

use audit::check;
use figures::Words;
use leaving::withdraw::withdraw_in;
use refusals::withdrawing::withdraw_given;
use table::given::{Given, Refusal};
use words::border;
use words::lent::are_words;

// Withdraws from a table that passes the check, without a check.
pub fn withdraw_passing(table: &mut Words, number: i32) -> Given
    requires { Passes table.old }
    ensures given { result ≡ withdraw_gives table.old number }
    ensures words { table.new ≡ after_withdraw table.old number }
{
    are_words(table);
    withdraw_given(table, number)?;
    withdraw_in(table, border::natural(number));
    Ok(())
}

// Withdraws the point with a number.
pub fn withdraw(table: &mut [i32], number: i32) -> Given
    ensures given { result ≡ withdraw_gives table.old number }
    ensures words { table.new ≡ after_withdraw table.old number }
{
    check(table)?;
    let Some(table) = table.as_mut_array() else {
        return Err(Refusal::WrongLength);
    };
    withdraw_passing(table, number)
}
