// A query on a well-formed table, for the answers alone: it writes on rows that are lent to it.
ghost use Rattle.std.specs.Prelude.{◌≡◌, cond, leb, length};
ghost use Rattle.filter.specs.Meaning.{rising};
ghost use Rattle.filter.specs.Query.{laid_over};
ghost use Rattle.asking.specs.Slate.{slate_of, SameSlate};
ghost use Rattle.asking.specs.Asked.{Askable, Replied};

use crate::slate::Slate;
use figures::Words;
use filter::find::find;
use filter::rows::Rows;
use filter::seen::Seen;
use grid::place::Place;
use grid::site::Site;
use vetting::answering::put_rising;
use vetting::keep::keep_passing;

// n answers, m candidates, o nodes opened.
#[derive(Clone, Copy)]
pub struct Reply {
    pub n: usize,
    pub m: usize,
    pub o: usize,
}

// The numbers kept go in rising order to the answer list; a list that is shorter stays as it was.
fn put_answers(seen: Seen, kept: &[u32], answers: &mut [u32]) -> Reply
    ensures reply { result ≡ record { n = length kept.now; m = seen.candidates; o = seen.opened } }
    ensures list { answers.new ≡ cond (leb (length kept.now) (length answers.old)) (laid_over (rising kept.now) answers.old) answers.old }
{
    if kept.len() <= answers.len() {
        put_rising(kept, answers);
    }
    Reply {
        n: kept.len(),
        m: seen.candidates,
        o: seen.opened,
    }
}

// The walk notes the candidates in the rows of the slate, and the final test reads them there; the numbers of those that pass are kept beside them before they go to the answer list.
pub fn answer(table: &Words, q: Site, k: usize, slate: &mut Slate<'_>, answers: &mut [u32]) -> Reply
    requires { Askable table.now q (slate_of slate.old) }
    ensures replied { Replied table.now q k (slate_of slate.old) (slate_of slate.new) answers.old answers.new result }
    ensures lent { SameSlate slate.old slate.new }
{
    let mut rows = Rows {
        numbers: &mut *slate.numbers,
        xs: &mut *slate.xs,
        ys: &mut *slate.ys,
        bars: &mut *slate.bars,
    };
    let seen = find(table, q, k, &mut rows);
    let place = Place::from(q);
    let found = rows.candidates();
    let n = keep_passing(table, found, seen.candidates, place, k, slate.kept);
    put_answers(seen, slate.kept(n), answers)
}
