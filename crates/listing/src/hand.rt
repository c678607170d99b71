// The candidates that a walk has noted in plain rows go over to a list of records.
ghost use Rattle.std.specs.Prelude.{◌≡◌, ◌+◌, ◌≤◌, length};
ghost use Rattle.filter.specs.Query.{laid_over};
ghost use Rattle.listing.specs.Records.{candidate_in, candidates_in, Readable};

use filter::rows::Candidates;
use grid::place::Place;
use grid::site::Site;
use record::{Candidate, append};
use words::border::word;

// Candidate i of a query at q, as a record.
pub fn candidate_at(candidates: Candidates<'_>, q: Site, i: usize) -> Candidate
    requires { Readable q candidates.numbers.now candidates.leads.xs.now candidates.leads.ys.now (i + 1) }
    ensures { result ≡ candidate_in q candidates.entry.numbers.now candidates.entry.leads.xs.now candidates.entry.leads.ys.now i }
{
    let asked = Place::from(q);
    let p = candidates.leads.place_at(i, asked);
    Candidate {
        number: u64::from(candidates.numbers[i]),
        x: word(p.x),
        y: word(p.y),
        square: asked.square_to(p),
    }
}

// The first m candidates go to the front of the list; the rest of it stays.
pub fn hand_over(list: &mut [Candidate], candidates: Candidates<'_>, q: Site, m: usize)
    requires { Readable q candidates.numbers.now candidates.leads.xs.now candidates.leads.ys.now m × (m ≤ length list.old) }
    ensures { list.new ≡ laid_over (candidates_in q candidates.entry.numbers.now candidates.entry.leads.xs.now candidates.entry.leads.ys.now m) list.old }
{
    for i in 0..m {
        append(list, i, candidate_at(candidates, q, i));
    }
}
