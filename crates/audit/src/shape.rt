// Rules 1 and 3: what each slot looks like by itself.
ghost use Rattle.std.specs.Prelude.{◌≡◌, ◌≤◌, ◌<◌, length, drop};
ghost use Rattle.order.specs.Lists.{every};
ghost use Rattle.figures.specs.Figures.{SLOTS};
ghost use Rattle.table.specs.Words.{is_zero};
ghost use Rattle.rules.specs.Rules.{rule1, rule3, least_fill};

use figures::{Table, Words};
use table::{part, slot};
use words::border;

// The word 0, in steps. A negative word lies left of it.
const ZERO: u64 = 2147483648;

// Whether all words of a part from `from` on are zero.
pub fn zeros_from(part: &[i32], from: usize) -> bool
    requires { from ≤ length part.now }
    ensures { result ≡ every is_zero (drop from part.now) }
{
    part[from..].iter().all(|word| border::steps(*word) == ZERO)
}

// Rule 1: a free slot has 41 zeros after its level; words of unused entries are zero in every slot.
pub fn rule1_at(table: &Words, slot: usize) -> bool
    requires { slot < SLOTS }
    ensures { result ≡ rule1 table.now slot }
{
    let words = slot::part_of(table, slot);
    if part::is_free_part(words) {
        return zeros_from(words, 1);
    }
    zeros_from(words, 2 + Table::ENTRY * part::filled_part(words))
}

// The least entries of a used slot: a root leaf 1, a root above 2, any other node 3.
pub fn least_fill(table: &Words, slot: usize) -> usize
    requires { slot < SLOTS }
    ensures { result ≡ least_fill table.now slot }
{
    if slot::root_of(table) != slot {
        return Table::LEAST;
    }
    if slot::level_at(table, slot) == 0 {
        1
    } else {
        2
    }
}

// Rule 3: a used slot has level 0 or more, and as many entries as its place in the tree asks.
pub fn rule3_at(table: &Words, slot: usize) -> bool
    requires { slot < SLOTS }
    ensures { result ≡ rule3 table.now slot }
{
    if slot::is_free(table, slot) {
        return true;
    }
    let words = slot::part_of(table, slot);
    if border::steps_at(words, 0) < ZERO {
        return false;
    }
    (least_fill(table, slot)..=Table::FAN).contains(&border::natural_at(words, 1))
}
