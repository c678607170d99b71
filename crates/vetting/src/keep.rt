// The candidates are read back from the rows of the walk, and the numbers of those that pass the final test are kept.
ghost use Rattle.std.specs.Prelude.{◌≡◌, false, ◌<◌, length};
ghost use Rattle.rules.specs.Rules.{Passing};
ghost use Rattle.filter.specs.Query.{laid_over};
ghost use Rattle.filter.specs.Rows.{rows_read, listed};
ghost use Rattle.vetting.specs.Test.{passes as passes_of};
ghost use Rattle.vetting.specs.Tested.{numbers_passing, Keepable};

use crate::test::Tested;
use figures::Words;
use filter::rows::Candidates;
use grid::place::Place;

// Whether a candidate passes, `near` of the candidates being as near to it as the query's place is, or nearer.
// It is at most one of them: if they are more than k, k others are, and the tree need not be asked.
fn is_kept(table: &Words, c: Tested, near: usize, k: usize) -> bool
    requires { Passing table.now × (k < near → passes_of table.now c.number c.place c.far k ≡ false) }
    ensures { result ≡ passes_of table.now c.number c.place c.far k }
{
    near <= k && c.passes(table, k)
}

// The numbers of the first m candidates that pass go to the front of `kept`, in the order found; gives back how many.
pub fn keep_passing(
    table: &Words,
    candidates: Candidates<'_>,
    m: usize,
    q: Place,
    k: usize,
    kept: &mut [u32],
) -> usize
    requires { Keepable table.now q (rows_read candidates) k m (length kept.old) }
    ensures count { result ≡ length (numbers_passing table.now q k (listed q (rows_read candidates.entry) m)) }
    ensures list { kept.new ≡ laid_over (numbers_passing table.now q k (listed q (rows_read candidates.entry) m)) kept.old }
{
    let leads = candidates.leads;
    let mut n = 0;
    for i in 0..m {
        let place = leads.place_at(i, q);
        let near = leads.as_near(m, place, q);
        let number = candidates.numbers[i];
        let c = Tested {
            number: number as usize,
            place,
            far: q.square_to(place),
        };
        if is_kept(table, c, near, k) {
            kept[n] = number;
            n += 1;
        }
    }
    n
}
