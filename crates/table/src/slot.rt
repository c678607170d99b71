// The slots of a lent table, and its two header words.
ghost use Rattle.std.specs.Prelude.{◌≡◌, ◌≤◌, ◌<◌, ◌^◌, pos, negsuc, length, get_or};
ghost use Rattle.figures.specs.Figures.{SLOTS};
ghost use Rattle.table.specs.Words.{root_of, points_of, start_of, part_at};
ghost use Rattle.table.specs.Page.{Shows, shown, PageFits, blank_entry};
ghost use Rattle.table.specs.Slots.{is_free, page_at, level_at, entries_at, put_page, freed, lowest_free, entry_for, with_root, with_points};

use crate::node::{Entry, Node};
use crate::part::{self, Part};
use figures::{Table, Words};
use words::border;

// Kept: a slot as a number below SLOTS, beside the table. A table that is not well formed may name any number, and an entry's reference is a point's number too, so a type
// of slots would be made and taken apart at each entry; and one that held the loan of the table would forbid the writes of a walk that holds several, no plainer.
// Where a slot's words start, and those of the slot before it end.
fn start(slot: usize) -> usize
    requires { slot ≤ SLOTS }
    ensures { result ≡ start_of slot }
{
    2 + Table::WIDTH * slot
}

// The words of a slot.
pub fn part_of(table: &Words, slot: usize) -> &Part
    requires { slot < SLOTS }
    ensures { result.now ≡ part_at table.now slot }
{
    table[start(slot)..start(slot + 1)].as_array().unwrap()
}

pub fn root_of(table: &Words) -> usize
    ensures { result ≡ root_of table.now }
{
    border::natural_at(table, 0)
}

pub fn points_of(table: &Words) -> usize
    ensures { result ≡ points_of table.now }
{
    border::natural_at(table, 1)
}

pub fn put_root(table: &mut Words, slot: usize)
    requires { slot < SLOTS }
    ensures { table.new ≡ with_root table.old (pos slot) }
{
    border::put_natural(table, 0, slot);
}

// The empty table's root is −1.
pub fn put_no_root(table: &mut Words)
    ensures { table.new ≡ with_root table.old (negsuc 0) }
{
    border::put_steps(table, 0, part::NONE);
}

pub fn put_points(table: &mut Words, points: usize)
    requires { points < 2 ^ 31 }
    ensures { table.new ≡ with_points table.old points }
{
    border::put_natural(table, 1, points);
}

pub fn is_free(table: &Words, slot: usize) -> bool
    requires { slot < SLOTS }
    ensures { result ≡ is_free table.now slot }
{
    part::is_free_part(part_of(table, slot))
}

pub fn level_at(table: &Words, slot: usize) -> usize
    requires { slot < SLOTS }
    ensures { result ≡ level_at table.now slot }
{
    border::natural_at(table, start(slot))
}

pub fn node_at(table: &Words, slot: usize) -> Node
    requires { slot < SLOTS }
    ensures { Shows result (page_at table.now slot) }
{
    part::node_of(part_of(table, slot))
}

// How many entries the node in a slot has.
pub fn count_at(table: &Words, slot: usize) -> usize
    requires { slot < SLOTS }
    ensures { result ≡ length (entries_at table.now slot) }
{
    part::filled_part(part_of(table, slot))
}

// One entry of the node in a slot, without the others.
pub fn entry_at(table: &Words, slot: usize, i: usize) -> Entry
    requires { (slot < SLOTS) × (i < length (entries_at table.now slot)) }
    ensures { result ≡ get_or (entries_at table.now slot) i blank_entry }
{
    part::entry_of(part_of(table, slot), i)
}

pub fn put_node_at(table: &mut Words, slot: usize, n: Node)
    requires { (slot < SLOTS) × PageFits (shown n) }
    ensures { table.new ≡ put_page table.old slot (shown n) }
{
    part::put_node(&mut table[start(slot)..start(slot + 1)], n);
}

pub fn free_slot(table: &mut Words, slot: usize)
    requires { slot < SLOTS }
    ensures { table.new ≡ freed table.old slot }
{
    part::free_part(&mut table[start(slot)..start(slot + 1)]);
}

// The lowest free slot; SLOTS if none is free.
// Kept: SLOTS for none, and no Option: so says `lowest_free` of specs/Slots.antt, which the definitions of enrolment cite (what may not change). A negative word reads as a number that no slot is (`nat_of`).
pub fn lowest_free(table: &Words) -> usize
    ensures { result ≡ lowest_free table.now }
{
    for slot in 0..Table::SLOTS {
        if is_free(table, slot) {
            return slot;
        }
    }
    Table::SLOTS
}

// The entry that a node above has for the node in a slot.
pub fn entry_for(table: &Words, slot: usize) -> Entry
    requires { slot < SLOTS }
    ensures { result ≡ entry_for table.now slot }
{
    Entry {
        reference: slot,
        rect: node_at(table, slot).cover(),
    }
}
