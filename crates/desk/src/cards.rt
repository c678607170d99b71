// The card of a station, with its refusals in document 02's order: 1, 2, 3, 5, 8, 10.
ghost use Rattle.rules.specs.Rules.{Passes};
ghost use Rattle.refusals.specs.Told.{carded};
ghost use Rattle.desk.specs.Carding.{Cards};

use audit::check;
use figures::Words;
use naming::find::find;
use naming::names::put_card;
use refusals::answered::{Refused, told};
use refusals::carding::card_asked;
use table::given::Refusal;
use words::border::natural;
use words::lent::are_words;

// Makes a card on a table that passes the check, without a check.
pub fn card_passing(table: &Words, number: i32, k: i32, list: &mut [u32]) -> Result<usize, Refused>
    requires { Passes table.now }
    ensures { Cards table.now number k list.old list.new (carded result) }
{
    are_words(table);
    card_asked(number, k)?;
    // One search tells both whether the station is enrolled and where it stands.
    let n = natural(number);
    let place = find(table, n).ok_or(Refusal::NotEnrolled)?;
    let names = put_card(table, n, place, natural(k), list);
    told(names, names, list.len())
}

// The k nearest other holders of the station with a number, in card order.
pub fn card(table: &[i32], number: i32, k: i32, list: &mut [u32]) -> Result<usize, Refused>
    ensures { Cards table.now number k list.old list.new (carded result) }
{
    check(table)?;
    let Some(table) = table.as_array() else {
        return Err(Refused::from(Refusal::WrongLength));
    };
    card_passing(table, number, k, list)
}
