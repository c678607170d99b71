// Rule 7: how often each slot is referred to, and how many points there are.
ghost use Rattle.std.specs.Prelude.{◌≡◌, true, ℕ, ◌+◌, ◌*◌, ◌≤◌, ◌<◌, List, ◌++◌, length, get_or};
ghost use Rattle.order.specs.Lists.{every, join, All};
ghost use Rattle.order.specs.Order.{up_from};
ghost use Rattle.figures.specs.Figures.{FAN, SLOTS};
ghost use Rattle.table.specs.Page.{held};
ghost use Rattle.table.specs.Slots.{slots};
ghost use Rattle.table.specs.Stations.{stations_at, stations};
ghost use Rattle.rules.specs.Rules.{refs_at, rule5, rule7, rule7_header};
ghost use Rattle.audit.specs.Seen.{refs_of, Tally};
ghost use Rattle.audit.specs.Asked.{Lowest};

use crate::{asked, children};
use figures::{Table, Words};
use table::node::Node;
use table::slot;

// Adds the references of a node to the number of each slot.
fn count_references(times: &mut [usize; Table::SLOTS], n: Node)
    requires room { (s : ℕ) → s < SLOTS → get_or times.old s 0 ≤ FAN * SLOTS }
    requires inside { All (λ e. e.reference < SLOTS) (held n) }
    ensures { (before : List ℕ) → Tally times.old before → Tally times.new (before ++ refs_of (held n)) }
{
    for e in n.held() {
        times[e.reference] += 1;
    }
}

// Adds those of one slot to those of the slots before it. The children are slots of the table by rule 5.
fn count_at(table: &Words, slot: usize, times: &mut [usize; Table::SLOTS])
    requires children { (slot < SLOTS) × (rule5 table.now slot ≡ true) }
    requires so_far { Tally times.old (join (refs_at table.now) (up_from 0 slot)) }
    ensures { Tally times.new (join (refs_at table.now) (up_from 0 (slot + 1))) }
{
    if children::is_above(table, slot) {
        let n = slot::node_at(table, slot);
        count_references(times, n);
    }
}

// How many points a slot holds, if it is a leaf.
fn points_at(table: &Words, slot: usize) -> usize
    requires { slot < SLOTS }
    ensures { result ≡ length (stations_at table.now slot) }
{
    if slot::level_at(table, slot) != 0 {
        return 0;
    }
    slot::count_at(table, slot)
}

// How many points the leaves hold.
pub fn leaf_entries(table: &Words) -> usize
    ensures { result ≡ length (stations table.now) }
{
    let mut points = 0;
    for slot in 0..Table::SLOTS {
        points += points_at(table, slot);
    }
    points
}

// Each used slot but the root is referred to once; the root never.
pub fn rule7_at(table: &Words, slot: usize, times: &[usize; Table::SLOTS]) -> bool
    requires { (slot < SLOTS) × Tally times.now (join (refs_at table.now) slots) }
    ensures { result ≡ rule7 table.now slot }
{
    if slot::is_free(table, slot) {
        return true;
    }
    if slot::root_of(table) == slot {
        return times[slot] == 0;
    }
    times[slot] == 1
}

// Whether word 1 is the number of leaf entries.
pub fn points_agree(table: &Words) -> bool
    ensures { result ≡ rule7_header table.now }
{
    slot::points_of(table) == leaf_entries(table)
}

// The lowest slot where rule 7 is broken; none if it holds at every one.
pub fn rule7_first(table: &Words) -> Option<usize>
    requires { every (rule5 table.now) slots ≡ true }
    ensures { Lowest (rule7 table.now) SLOTS result }
{
    let mut times = [0; Table::SLOTS];
    for slot in 0..Table::SLOTS {
        count_at(table, slot, &mut times);
    }
    asked::first_broken(|slot| rule7_at(table, slot, &times))
}
