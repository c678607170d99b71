// Rule 4: the points in the leaves, no number twice.
ghost use Rattle.std.specs.Prelude.{◌≡◌, true, List, ℕ, ◌+◌, ◌<◌};
ghost use Rattle.order.specs.Lists.{every, join};
ghost use Rattle.order.specs.Order.{up_from};
ghost use Rattle.figures.specs.Figures.{SLOTS};
ghost use Rattle.table.specs.Page.{held};
ghost use Rattle.table.specs.Stations.{span_is_spot, is_point};
ghost use Rattle.rules.specs.Rules.{numbers_at, rule4};
ghost use Rattle.audit.specs.Seen.{refs_of, Marks, Entered};
ghost use Rattle.audit.specs.Asked.{Lowest};

use axis::span::Span;
use figures::{Table, Words};
use table::node::{Entry, Node};
use table::slot;
use words::border;

// The places of a map of all point numbers: 0 is none.
const NUMBERS: usize = Table::HIGHEST + 1;

// Low equals high, on the grid.
fn span_is_spot(s: Span) -> bool
    ensures { result ≡ span_is_spot s }
{
    s.low == s.high && border::step_on_grid(s.low)
}

// An entry that a leaf may hold.
pub fn is_point(e: Entry) -> bool
    ensures { result ≡ is_point e }
{
    (1..=Table::HIGHEST).contains(&e.reference) && span_is_spot(e.rect.x) && span_is_spot(e.rect.y)
}

pub fn all_points(n: Node) -> bool
    ensures { result ≡ every is_point (held n) }
{
    n.held().iter().all(|e| is_point(*e))
}

// Marks the numbers of a leaf in the map of all numbers; false at the first that is marked already.
fn mark(seen: &mut [bool; NUMBERS], n: Node) -> bool
    requires { every is_point (held n) ≡ true }
    ensures { (before : List ℕ) → Marks seen.old before → Entered before (refs_of (held n)) result seen.new }
{
    for e in n.held() {
        let number = e.reference;
        if seen[number] {
            return false;
        }
        seen[number] = true;
    }
    true
}

// Rule 4 at one slot, where the map marks the numbers in the slots before it.
fn rule4_at(table: &Words, slot: usize, seen: &mut [bool; NUMBERS]) -> bool
    requires { (slot < SLOTS) × Marks seen.old (join (numbers_at table.now) (up_from 0 slot)) }
    ensures answer { result ≡ rule4 table.now slot }
    ensures marks { result ≡ true → Marks seen.new (join (numbers_at table.now) (up_from 0 (slot + 1))) }
{
    if slot::level_at(table, slot) != 0 {
        return true;
    }
    let n = slot::node_at(table, slot);
    if !all_points(n) {
        return false;
    }
    mark(seen, n)
}

// Kept: a loop of its own beside `first_broken`: it writes the map as it goes, so a promise over a closure would speak of each state of the map, no plainer.
// The lowest slot where rule 4 is broken, in one pass; none if it holds at every one. A number that is met again is broken at the later place.
pub fn rule4_first(table: &Words) -> Option<usize>
    ensures { Lowest (rule4 table.now) SLOTS result }
{
    let mut seen = [false; NUMBERS];
    for slot in 0..Table::SLOTS {
        if !rule4_at(table, slot, &mut seen) {
            return Some(slot);
        }
    }
    None
}
