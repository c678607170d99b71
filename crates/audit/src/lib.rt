// The table check: rules 1 to 7 of document 01, each a test of its own that may count on the rules before it. Those of one slot are asked by one loop.
// It promises, for every slice of words whatever, exactly 1, 2 or 0, with 2 the lowest rule that is broken and the lowest slot where it is; and never reads past an end.
// It stands on rules (what each rule says) and table (parts, nodes, slots).
#![tactic(auto)]

ghost use Rattle.std.specs.Prelude.{◌≡◌, ◌<◌, Err, IfSome, MatchOption, cond, pos, negsuc};
ghost use Rattle.figures.specs.Figures.{SLOTS};
ghost use Rattle.table.specs.Given.{Done};
ghost use Rattle.audit.specs.Check.{check_gives};

pub mod asked;
pub mod children;
pub mod header;
pub mod numbers;
pub mod references;
pub mod shape;

use asked::first_broken;
use figures::Words;
use table::given::{Given, Refusal};

// What is given of a rule of the slots: it may be broken at one of them.
fn at_slots(rule: u8, broken: Option<usize>) -> Given
    requires { IfSome broken (λ slot. slot < SLOTS) }
    ensures { MatchOption broken (result ≡ Done) (λ slot. result ≡ Err (Refusal.NotWellFormed rule (pos slot))) }
{
    match broken {
        Some(slot) => Err(Refusal::NotWellFormed {
            rule,
            slot: slot as i32,
        }),
        None => Ok(()),
    }
}

// What is given of a rule of the two header words.
fn at_header(rule: u8, holds: bool) -> Given
    ensures { result ≡ cond holds Done (Err (Refusal.NotWellFormed rule (negsuc 0))) }
{
    if holds {
        Ok(())
    } else {
        Err(Refusal::NotWellFormed { rule, slot: -1 })
    }
}

// The rules in their order. Each is asked in one pass, which stops at the lowest slot where it is broken.
fn rules_kept(table: &Words) -> Given
    ensures { result ≡ check_gives table.now }
{
    at_slots(1, first_broken(|slot| shape::rule1_at(table, slot)))?;
    at_header(2, header::rule2_holds(table))?;
    at_slots(3, first_broken(|slot| shape::rule3_at(table, slot)))?;
    at_slots(4, numbers::rule4_first(table))?;
    at_slots(5, first_broken(|slot| children::rule5_at(table, slot)))?;
    at_slots(6, first_broken(|slot| children::rule6_at(table, slot)))?;
    at_header(7, references::points_agree(table))?;
    at_slots(7, references::rule7_first(table))
}

// The table check: 1, 2 or 0, and the table stays as it is.
pub fn check(table: &[i32]) -> Given
    ensures { result ≡ check_gives table.now }
{
    let Some(words) = table.as_array() else {
        return Err(Refusal::WrongLength);
    };
    rules_kept(words)
}
