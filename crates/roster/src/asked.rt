// What a record asks for, and what it is refused with.
ghost use Rattle.std.specs.Prelude.{◌≡◌, [], length, get_or};
ghost use Rattle.jobs.specs.Number.{read_number};
ghost use Rattle.cuts.specs.declared.parts.Mark.TheVariants.{Comma};
ghost use Rattle.cuts.specs.Cuts.{parts_of};
ghost use Rattle.csv_grammar.specs.Grammar.{is_record};
ghost use Rattle.csv_grammar.specs.Reading.{bare_of};
ghost use Rattle.roster.specs.Asked.{FIELDS, asked_by, given_for};

use csv_grammar::bare::bare;
use csv_grammar::grammar::is_field;
use cuts::fields::{field, field_count};
use grid::site::Site;
use jobs::job::Job;
use jobs::number::read_number;
use limits::{no_such_number, off_grid};
use table::given::{Given, Refusal};

// Number, x, y and a free name.
const FIELDS: usize = 4;

// The number in field i of a record, or that it is none. Where two quote marks stand for one there is no number, read as one or not.
fn number_in(item: &[u8], i: usize) -> Option<i32>
    ensures { result ≡ read_number (bare_of (get_or (parts_of Comma item.now) i [])) }
{
    read_number(bare(field(item, i)))
}

// Whether each field of a record of four is sound.
fn is_sound(item: &[u8]) -> bool
    requires { length (parts_of Comma item.now) ≡ FIELDS }
    ensures { result ≡ is_record item.now }
{
    (0..FIELDS).all(|i| is_field(field(item, i)))
}

// What a record asks for: the enrolment of a holder, or it is misshapen. The name is read by nobody.
pub fn asked_by(item: &[u8]) -> Job
    ensures { result ≡ asked_by item.now }
{
    if field_count(item) != FIELDS {
        return Job::Misshapen;
    }
    if !is_sound(item) {
        return Job::Misshapen;
    }
    let Some(number) = number_in(item, 0) else {
        return Job::Misshapen;
    };
    let Some(x) = number_in(item, 1) else {
        return Job::Misshapen;
    };
    let Some(y) = number_in(item, 2) else {
        return Job::Misshapen;
    };
    Job::Enrol(number, x, y)
}

// What it is refused with, if it is: 11, then 3, then 4.
pub fn given_for(asked: Job) -> Given
    ensures { result ≡ given_for asked }
{
    let Job::Enrol(number, x, y) = asked else {
        return Err(Refusal::Misshapen);
    };
    if no_such_number(number) {
        return Err(Refusal::NoSuchNumber);
    }
    if off_grid(Site { x, y }) {
        return Err(Refusal::OffGrid);
    }
    Ok(())
}
