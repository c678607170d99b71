// Withdrawal from a well-formed table.
ghost use Rattle.std.specs.Prelude.{◌≡◌, ◌-◌, ◌≤◌, ◌<◌, eqb, position};
ghost use Rattle.order.specs.Lists.{All};
ghost use Rattle.figures.specs.Figures.{FAN, SLOTS};
ghost use Rattle.change.specs.Choose.{entry_in};
ghost use Rattle.table.specs.Page.{page, held, shown, Shows};
ghost use Rattle.change.specs.Planted.{Planted};
ghost use Rattle.leaving.specs.Withdraw.{holds as holds_of, tight_at, joint_at, shared_out, merged, shared, joined, lower_place, mended, removed, lowered, withdrawn};
ghost use Rattle.leaving.specs.Withdraw.{Removable, MayShare, Mendable, Joinable, Lowerable, MayWithdraw};

use change::share::lined;
use figures::{Table, Words};
use table::node::Node;
use table::slot;

// The place of a point number in a leaf, if it is there.
fn leaf_place(n: Node, number: usize) -> Option<usize>
    ensures { result ≡ position (λ e. eqb e.reference number) (held n) }
{
    n.held().iter().position(|e| e.reference == number)
}

// The place of the child, of this level, below which a point number stands, if there is one.
#[cycle(child_place_holds)]
fn child_place(table: &Words, level: usize, n: Node, number: usize) -> Option<usize>
    requires { All (λ e. Planted level table.now e.reference) (held n) }
    ensures { result ≡ position (λ e. holds_of level table.now e.reference number) (held n) }
{
    for (i, e) in n.held().iter().enumerate() {
        if holds(table, level, e.reference, number) {
            return Some(i);
        }
    }
    None
}

// Whether a point number stands below a slot of this level.
#[cycle(child_place_holds)]
fn holds(table: &Words, level: usize, slot: usize, number: usize) -> bool
    requires { Planted level table.now slot }
    ensures { result ≡ holds_of level table.now slot number }
{
    let n = slot::node_at(table, slot);
    if level == 0 {
        return leaf_place(n, number).is_some();
    }
    child_place(table, level - 1, n, number).is_some()
}

// A node's entries in order go to two slots: the first share to c, the rest to d.
fn share_out(table: &mut Words, c: usize, d: usize, joint: Node)
    requires { MayShare c d joint }
    ensures { table.new ≡ shared_out table.old c d joint.level (held joint) }
{
    let all = lined(joint);
    let half = all.count / 2;
    slot::put_node_at(table, c, all.first(half));
    slot::put_node_at(table, d, all.rest(half));
}

// Kept: what is asked of it below (Joinable, Mendable) speaks of the table with it, and so is no invariant of its own; a place among its children is asked for as an index is.
// A node above the leaves, and the slot that it stands in.
#[derive(Clone, Copy)]
struct Parent {
    slot: usize,
    node: Node,
}

impl Parent {
    // The slot of the child at a place.
    fn child_at(self, i: usize) -> usize
        requires { i < self.node.count }
        ensures { result ≡ (entry_in (held self.node) i).reference }
    {
        self.node.entries[i].reference
    }

    // The box of the entry at a place is made tight.
    fn tightened(self, table: &Words, i: usize) -> Parent
        requires { (i < self.node.count) × ((entry_in (held self.node) i).reference < SLOTS) }
        ensures slot { result.slot ≡ self.slot }
        ensures node { Shows result.node (page self.node.level (tight_at table.now (held self.node) i)) }
    {
        let tight = slot::entry_for(table, self.child_at(i));
        Parent {
            slot: self.slot,
            node: self.node.replaced(i, tight),
        }
    }

    // Up to eight entries go to the lower-placed of the children at places a and a + 1; the other slot becomes free.
    fn merge(self, table: &mut Words, a: usize, joint: Node)
        requires { Joinable table.old self.slot (shown self.node) a × Shows joint (page (self.node.level - 1) (joint_at table.old (held self.node) a)) × (joint.count ≤ FAN) }
        ensures { table.new ≡ merged table.old self.slot (self.node.level - 1) (held self.node) a (joint_at table.old (held self.node) a) }
    {
        let c = self.child_at(a);
        let d = self.child_at(a + 1);
        slot::put_node_at(table, c, joint);
        slot::free_slot(table, d);
        let m = self.tightened(table, a);
        slot::put_node_at(table, self.slot, m.node.without(a + 1));
    }

    // Nine or ten entries of the children at places a and a + 1 are shared, the first share to the lower-placed of them.
    fn share(self, table: &mut Words, a: usize, joint: Node)
        requires { Joinable table.old self.slot (shown self.node) a × Shows joint (page (self.node.level - 1) (joint_at table.old (held self.node) a)) }
        ensures { table.new ≡ shared table.old self.slot (self.node.level - 1) (held self.node) a (joint_at table.old (held self.node) a) }
    {
        share_out(table, self.child_at(a), self.child_at(a + 1), joint);
        let m = self.tightened(table, a);
        let o = m.tightened(table, a + 1);
        slot::put_node_at(table, self.slot, o.node);
    }

    // The children at places a and a + 1 join: the lower-placed node's entries, then the other's.
    fn join_children(self, table: &mut Words, a: usize)
        requires { Joinable table.old self.slot (shown self.node) a }
        ensures { table.new ≡ joined table.old self.slot (self.node.level - 1) (held self.node) a }
    {
        let first = slot::node_at(table, self.child_at(a));
        let other = slot::node_at(table, self.child_at(a + 1));
        let joint = first.joined(other);
        if joint.count <= Table::FAN {
            self.merge(table, a, joint);
            return;
        }
        self.share(table, a, joint);
    }

    // The lower place of a child and its next sibling by place, or its previous one if it is last.
    fn lower_place(self, i: usize) -> usize
        requires { (i < self.node.count) × (2 ≤ self.node.count) }
        ensures { result ≡ lower_place (held self.node) i }
    {
        if i + 1 < self.node.count {
            return i;
        }
        i - 1
    }

    // After a withdrawal below the entry at place i: a child that has fallen to two joins a sibling, else its box is made tight.
    fn mend(self, table: &mut Words, i: usize)
        requires { Mendable table.old self.slot (shown self.node) i }
        ensures { table.new ≡ mended table.old self.slot (self.node.level - 1) (held self.node) i }
    {
        let child = slot::node_at(table, self.child_at(i));
        if child.count < Table::LEAST {
            self.join_children(table, self.lower_place(i));
            return;
        }
        let m = self.tightened(table, i);
        slot::put_node_at(table, self.slot, m.node);
    }
}

// Takes a point number out of the tree below a slot of this level.
// Kept: slot and level as two words; each step down makes both anew, so a struct of them would be made and taken apart at each call.
fn remove(table: &mut Words, level: usize, slot: usize, number: usize)
    requires { Removable level table.old slot number }
    ensures { table.new ≡ removed level table.old slot number }
{
    let n = slot::node_at(table, slot);
    if level == 0 {
        let i = leaf_place(n, number).unwrap();
        slot::put_node_at(table, slot, n.without(i));
        return;
    }
    let i = child_place(table, level - 1, n, number).unwrap();
    let parent = Parent { slot, node: n };
    remove(table, level - 1, parent.child_at(i), number);
    parent.mend(table, i);
}

// The last point leaves no root; a root above the leaves with one child gives way to it.
fn lower_root(table: &mut Words, root: usize)
    requires { Lowerable table.old root }
    ensures { table.new ≡ lowered table.old root }
{
    let n = slot::node_at(table, root);
    if n.count == 0 {
        slot::free_slot(table, root);
        slot::put_no_root(table);
        return;
    }
    if n.level == 0 {
        return;
    }
    if n.count != 1 {
        return;
    }
    slot::free_slot(table, root);
    slot::put_root(table, n.entries[0].reference);
}

// A granted withdrawal.
pub fn withdraw_in(table: &mut Words, number: usize)
    requires { MayWithdraw table.old number }
    ensures { table.new ≡ withdrawn table.old number }
{
    let root = slot::root_of(table);
    let level = slot::level_at(table, root);
    let points = slot::points_of(table);
    remove(table, level, root, number);
    lower_root(table, root);
    slot::put_points(table, points - 1);
}
