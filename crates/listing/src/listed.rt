// A query on a well-formed table that lists its candidates too, in a lent row of records.
ghost use Rattle.std.specs.Prelude.{length};
ghost use Rattle.listing.specs.Listed.{Listable, Listed};

use crate::hand::hand_over;
use asking::answer::{Reply, answer};
use asking::slate::Slate;
use figures::{Table, Words};
use filter::rows::Candidates;
use grid::site::Site;
use leads::row::Leads;
use record::Candidate;

// The query writes on a slate of rows made here, with room for as many candidates as a table has points. What it has left in them is read back: its candidates go over to the front of the list, and the rest of that stays.
pub fn answer_listed(
    table: &Words,
    q: Site,
    k: usize,
    list: &mut [Candidate],
    answers: &mut [u32],
) -> Reply
    requires { Listable table.now q (length list.old) }
    ensures { Listed table.now q k list.old list.new answers.old answers.new result }
{
    let mut numbers = [0; Table::MOST];
    let mut xs = [0; Table::MOST];
    let mut ys = [0; Table::MOST];
    let mut bars = [0; Table::MOST];
    let mut slate = Slate {
        numbers: &mut numbers,
        xs: &mut xs,
        ys: &mut ys,
        bars: &mut bars,
        kept: &mut [0; Table::MOST],
    };
    let reply = answer(table, q, k, &mut slate, answers);
    let leads = Leads {
        xs: &xs,
        ys: &ys,
        bars: &bars,
    };
    let found = Candidates {
        numbers: &numbers,
        leads,
    };
    hand_over(list, found, q, reply.m);
    reply
}
