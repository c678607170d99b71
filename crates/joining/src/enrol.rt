// A granted enrolment: the way down, the node that takes the newcomer, and the splits on the way back up.
ghost use Rattle.std.specs.Prelude.{◌≡◌, [], ◌∷◌, ◌++◌, ◌<◌};
ghost use Rattle.order.specs.Lists.{All};
ghost use Rattle.table.specs.Page.{page, held, Shows, EntryFits};
ghost use Rattle.joining.specs.Enrol.{split as split_of, settled, inserted, rooted, first_enrolled, next_enrolled, enrolled};
ghost use Rattle.joining.specs.Within.{new_of, grew, MaySettle, MayInsert, MayRaise, MayGrow, MayEnrol};

use change::choose::choose;
use change::share::lined;
use figures::{Table, Words};
use table::node::{Entry, Node};
use table::slot;

// Of nine entries the first four stay; the other five go to the lowest free slot.
fn split(table: &mut Words, slot: usize, n: Node) -> Option<Entry>
    requires { MaySettle table.old slot n }
    ensures { grew table.new result ≡ split_of table.old slot n.level (held n) }
{
    let to = slot::lowest_free(table);
    let half = n.count / 2;
    let all = lined(n);
    let first = all.first(half);
    let other = all.rest(half);
    slot::put_node_at(table, slot, first);
    slot::put_node_at(table, to, other);
    Some(Entry {
        reference: to,
        rect: other.cover(),
    })
}

// Up to eight entries stay together.
fn settle(table: &mut Words, slot: usize, n: Node) -> Option<Entry>
    requires { MaySettle table.old slot n }
    ensures { grew table.new result ≡ settled table.old slot n.level (held n) }
{
    if n.count <= Table::FAN {
        slot::put_node_at(table, slot, n);
        return None;
    }
    split(table, slot, n)
}

// The new node's entry, if there is one, goes last.
fn with_new(n: Node, new: Option<Entry>) -> Node
    requires { n.count < 10 }
    ensures { Shows result (page n.level (held n ++ new_of new)) }
{
    match new {
        None => n,
        Some(e) => n.appended(e),
    }
}

// Into the node in a slot, of a level. In a leaf the newcomer goes last; above, it goes into the child that is chosen.
// Handed up is the entry of a new node, if one was made.
// Kept: slot and level as two words; each step down makes both anew, so a struct of them would be made and taken apart at each call.
fn insert(table: &mut Words, slot: usize, level: usize, e: Entry) -> Option<Entry>
    requires { MayInsert level table.old slot e }
    ensures { grew table.new result ≡ inserted level table.old slot e }
{
    let n = slot::node_at(table, slot);
    if level == 0 {
        let more = n.appended(e);
        return settle(table, slot, more);
    }
    let i = choose(n, e.rect);
    let taker = n.entries[i];
    let child = taker.reference;
    let new = insert(table, child, level - 1, e);
    let tight = slot::entry_for(table, child);
    settle(table, slot, with_new(n.replaced(i, tight), new))
}

// A new root takes the lowest slot then free, with the old node first and the new one's entry last.
fn put_above(table: &mut Words, slot: usize, level: usize, e: Entry)
    requires { MayRaise table.old slot level × EntryFits e }
    ensures { table.new ≡ rooted slot level table.old (e ∷ []) }
{
    let to = slot::lowest_free(table);
    let old = slot::entry_for(table, slot);
    let n = Node::empty(level + 1).appended(old).appended(e);
    slot::put_node_at(table, to, n);
    slot::put_root(table, to);
}

// If the root has split, there is a new one above it.
fn raise(table: &mut Words, slot: usize, level: usize, new: Option<Entry>)
    requires { MayRaise table.old slot level × All EntryFits (new_of new) }
    ensures { table.new ≡ rooted slot level table.old (new_of new) }
{
    if let Some(e) = new {
        put_above(table, slot, level, e);
    }
}

// On the empty table slot 0 becomes a root leaf with the one entry.
fn put_first(table: &mut Words, e: Entry)
    requires { EntryFits e }
    ensures { table.new ≡ first_enrolled table.old e }
{
    let n = Node::empty(0).appended(e);
    slot::put_node_at(table, 0, n);
    slot::put_root(table, 0);
}

// Otherwise the way starts at the root.
fn put_next(table: &mut Words, e: Entry)
    requires { MayGrow table.old e }
    ensures { table.new ≡ next_enrolled table.old e }
{
    let slot = slot::root_of(table);
    let level = slot::level_at(table, slot);
    let new = insert(table, slot, level, e);
    raise(table, slot, level, new);
}

// A granted enrolment.
pub fn enrol_in(table: &mut Words, e: Entry)
    requires { MayEnrol table.old e }
    ensures { table.new ≡ enrolled table.old e }
{
    let points = slot::points_of(table);
    if points == 0 {
        put_first(table, e);
        slot::put_points(table, 1);
        return;
    }
    put_next(table, e);
    slot::put_points(table, points + 1);
}
