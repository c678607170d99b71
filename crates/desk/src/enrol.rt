// Enrolment, with its refusals in document 01's order: 1, 2, 3, 4, 6, 7.
ghost use Rattle.std.specs.Prelude.{◌≡◌};
ghost use Rattle.rules.specs.Rules.{Passes};
ghost use Rattle.refusals.specs.Refusals.{enrol_gives};
ghost use Rattle.desk.specs.Calls.{point_entry, after_enrol};

use audit::check;
use figures::Words;
use grid::place::Place;
use grid::site::Site;
use joining::enrol::enrol_in;
use refusals::enrolling::enrol_given;
use table::given::{Given, Refusal};
use table::node::Entry;
use words::border;
use words::lent::are_words;

// The entry that a leaf has for a point.
fn point_entry(number: i32, site: Site) -> Entry
    ensures { result ≡ point_entry number site }
{
    Entry {
        reference: border::natural(number),
        rect: Place::from(site).spot(),
    }
}

// Enrols on a table that passes the check. Who knows that it passes, as the job sheet does, pays for no check.
pub fn enrol_passing(table: &mut Words, number: i32, site: Site) -> Given
    requires { Passes table.old }
    ensures given { result ≡ enrol_gives table.old number site }
    ensures words { table.new ≡ after_enrol table.old number site }
{
    are_words(table);
    enrol_given(table, number, site)?;
    enrol_in(table, point_entry(number, site));
    Ok(())
}

// Enrols a point at a place.
pub fn enrol(table: &mut [i32], number: i32, site: Site) -> Given
    ensures given { result ≡ enrol_gives table.old number site }
    ensures words { table.new ≡ after_enrol table.old number site }
{
    check(table)?;
    let Some(table) = table.as_mut_array() else {
        return Err(Refusal::WrongLength);
    };
    enrol_passing(table, number, site)
}
