// The 42 words of one slot, lent as a part of the table: what they hold, and how they are written.
ghost use Rattle.std.specs.Prelude.{◌≡◌, ◌+◌, ◌*◌, ◌<◌, length};
ghost use Rattle.figures.specs.Figures.{FAN, WIDTH, ENTRY};
ghost use Rattle.table.specs.Words.{placed, word, is_minus_one};
ghost use Rattle.table.specs.Page.{Shows, shown, EntryFits, PageFits, entry_of, filled, page_of, entry_words, page_words, free_words};

use crate::node::{Entry, Node};
use axis::span::Span;
use figures::Table;
use grid::rect::Rect;
use words::border;

// The words of one slot.
pub type Part = [i32; Table::WIDTH];

// The word −1, in steps: the level of a free slot, and the root of an empty table.
pub const NONE: u64 = 2147483647;

// Whether the slot is free: its level is −1.
pub fn is_free_part(part: &Part) -> bool
    ensures { result ≡ is_minus_one (word part.now 0) }
{
    border::steps_at(part, 0) == NONE
}

// How many entries the words hold.
pub fn filled_part(part: &Part) -> usize
    ensures { result ≡ filled part.now }
{
    border::natural_at(part, 1).min(Table::FAN)
}

// Entry i: reference, x low, y low, x high, y high.
pub fn entry_of(part: &Part, i: usize) -> Entry
    requires { i < FAN }
    ensures { result ≡ entry_of part.now i }
{
    let at = 2 + Table::ENTRY * i;
    Entry {
        reference: border::natural_at(part, at),
        rect: Rect {
            x: Span {
                low: border::steps_at(part, at + 1),
                high: border::steps_at(part, at + 3),
            },
            y: Span {
                low: border::steps_at(part, at + 2),
                high: border::steps_at(part, at + 4),
            },
        },
    }
}

// The node that the words hold.
pub fn node_of(part: &Part) -> Node
    ensures { Shows result (page_of part.now) }
{
    let count = filled_part(part);
    let mut entries = [Entry::blank(); 10];
    for i in 0..count {
        entries[i] = entry_of(part, i);
    }
    Node {
        level: border::natural_at(part, 0),
        count,
        entries,
    }
}

// Kept: that an entry fits its words is asked where it is written, and is no invariant: `entry_of` of specs/Page.antt reads entries of any words.
// Kept: a slice and its length, in the three functions that write; what is written through `as_mut_array().unwrap()` was not known to come back (tried).
pub fn put_entry(part: &mut [i32], i: usize, e: Entry)
    requires { (length part.old ≡ WIDTH) × (i < FAN) × EntryFits e }
    ensures { part.new ≡ placed part.old (2 + ENTRY * i) (entry_words e) }
{
    let at = 2 + Table::ENTRY * i;
    border::put_natural(part, at, e.reference);
    border::put_steps(part, at + 1, e.rect.x.low);
    border::put_steps(part, at + 2, e.rect.y.low);
    border::put_steps(part, at + 3, e.rect.x.high);
    border::put_steps(part, at + 4, e.rect.y.high);
}

// The slot becomes free: level −1, then zeros.
pub fn free_part(part: &mut [i32])
    requires { length part.old ≡ WIDTH }
    ensures { part.new ≡ free_words }
{
    part.fill(0);
    border::put_steps(part, 0, NONE);
}

// The node's level, number and entries; words of unused entries are zero.
pub fn put_node(part: &mut [i32], n: Node)
    requires { (length part.old ≡ WIDTH) × PageFits (shown n) }
    ensures { part.new ≡ page_words (shown n) }
{
    free_part(part);
    border::put_natural(part, 0, n.level);
    border::put_natural(part, 1, n.count);
    for (i, e) in n.held().iter().enumerate() {
        put_entry(part, i, *e);
    }
}
