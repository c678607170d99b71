// The reverse k-nearest query, with its refusals in document 01's order: 1, 2, 4, 5, 9, 10. The candidate list is a lent row of records.
ghost use Rattle.rules.specs.Rules.{Passes};
ghost use Rattle.refusals.specs.Told.{answered};
ghost use Rattle.desk.specs.Lent.{Answers};

use asking::answer::Reply;
use audit::check;
use figures::Words;
use grid::site::Site;
use listing::listed::answer_listed;
use record::Candidate;
use refusals::answered::{Refused, told};
use refusals::querying::query_given;
use table::given::Refusal;
use words::border::natural;
use words::lent::are_words;

// Answers a query on a table that passes the check, without a check.
pub fn query_passing(
    table: &Words,
    q: Site,
    k: i32,
    candidates: &mut [Candidate],
    answers: &mut [u32],
) -> Result<Reply, Refused>
    requires { Passes table.now }
    ensures { Answers table.now q k candidates.old candidates.new answers.old answers.new (answered result) }
{
    are_words(table);
    query_given(table, q, k, candidates.len())?;
    let reply = answer_listed(table, q, natural(k), candidates, answers);
    told(reply, reply.n, answers.len())
}

// The points that have fewer than k others as near as the place or nearer.
pub fn query(
    table: &[i32],
    q: Site,
    k: i32,
    candidates: &mut [Candidate],
    answers: &mut [u32],
) -> Result<Reply, Refused>
    ensures { Answers table.now q k candidates.old candidates.new answers.old answers.new (answered result) }
{
    check(table)?;
    let Some(table) = table.as_array() else {
        return Err(Refused::from(Refusal::WrongLength));
    };
    query_passing(table, q, k, candidates, answers)
}
