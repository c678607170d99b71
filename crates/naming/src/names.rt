// The card of a station on a table that passes the check.
ghost use Rattle.std.specs.Prelude.{◌≡◌, map, ◌≤◌, ltb, length, take, replicate};
ghost use Rattle.order.specs.Lists.{count as count_of};
ghost use Rattle.order.specs.Order.{NONE};
ghost use Rattle.filter.specs.Query.{laid_over};
ghost use Rattle.naming.specs.Holders.{number_in};
ghost use Rattle.naming.specs.Named.{Namable, Named};

use crate::best::{BASE, Best};
use crate::down::offer_below;
use crate::holder::Holder;
use figures::Words;
use grid::place::Place;
use table::slot::{level_at, root_of};

// The most names on a card.
pub const MOST: usize = 16;

// How many places of the row have a holder.
fn names_in(marks: &[u64]) -> usize
    ensures { result ≡ count_of (λ m. ltb m NONE) marks.now }
{
    let mut n = 0;
    for mark in marks {
        n += order::one(*mark < order::NONE);
    }
    n
}

// The marks of holders become names at the front of the list.
fn put_names(marks: &[u64], list: &mut [u32])
    requires { length marks.now ≤ length list.old }
    ensures { list.new ≡ laid_over (map number_in marks.now) list.old }
{
    for (i, mark) in marks.iter().enumerate() {
        list[i] = (*mark % BASE) as u32;
    }
}

// The names of the best in the tree go to the list if it has room for them; gives back how many there are.
// The row has a place for each name of the card, with no holder yet. What it has afterwards nobody reads.
fn put_best(table: &Words, holder: Holder, marks: &mut [u64], list: &mut [u32]) -> usize
    requires { Namable table.now holder.number holder.place (length marks.old) × (marks.old ≡ replicate (length marks.old) NONE) }
    ensures { Named table.now holder.number (length marks.old) list.old list.new result }
{
    let root = root_of(table);
    let level = level_at(table, root);
    offer_below(table, root, level, holder, &mut Best { marks });
    let n = names_in(marks);
    if n <= list.len() {
        put_names(&marks[..n], list);
    }
    n
}

// The card of the station with a number, which stands at a place: its k nearest others.
pub fn put_card(table: &Words, number: usize, place: Place, k: usize, list: &mut [u32]) -> usize
    requires { Namable table.now number place k }
    ensures { Named table.now number k list.old list.new result }
{
    let holder = Holder { number, place };
    let mut marks = [order::NONE; MOST];
    put_best(table, holder, &mut marks[..k], list)
}
