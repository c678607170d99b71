// A node by value: it goes out of the table, is worked on, and goes back in.
ghost use Rattle.std.specs.Prelude.{◌≡◌, ◌+◌, ◌≤◌, ◌<◌};

use axis::span::Span;
use grid::rect::Rect;

#[derive(Clone, Copy, PartialEq, Eq)]
pub struct Entry {
    // A point number in a leaf, a child slot above.
    pub reference: usize,
    pub rect: Rect,
}

// A split looks at nine entries and a join at ten, so there is room for ten.
// Kept: an array of ten with a count beside, no Vec (no heap): a node goes by value, and its words are read into it.
#[derive(Clone, Copy)]
pub struct Node {
    pub level: usize,
    pub count: usize,
    pub entries: [Entry; 10],
    pub ghost room: { count ≤ 10 },
}

impl Entry {
    ghost use Rattle.table.specs.Page.{blank_entry};

    // What stands where no entry does.
    pub fn blank() -> Entry
        ensures { result ≡ blank_entry }
    {
        Entry {
            reference: 0,
            rect: Rect {
                x: Span { low: 0, high: 0 },
                y: Span { low: 0, high: 0 },
            },
        }
    }
}

impl Node {
    ghost use Rattle.std.specs.Prelude.{[], ◌∷◌, ◌++◌, take, drop, set};
    ghost use Rattle.table.specs.Page.{page, held, Shows, without as without_of, cover_of};

    pub fn empty(level: usize) -> Node
        ensures { Shows result (page level []) }
    {
        Node {
            level,
            count: 0,
            entries: [Entry::blank(); 10],
        }
    }

    // The entries that the node holds.
    pub fn held(&self) -> &[Entry]
        ensures { result.now ≡ held self.now }
    {
        &self.entries[..self.count]
    }

    // The entry goes last.
    pub fn appended(self, e: Entry) -> Node
        requires { self.count < 10 }
        ensures { Shows result (page self.level (held self ++ e ∷ [])) }
    {
        let mut n = self;
        n.entries[n.count] = e;
        n.count += 1;
        n
    }

    // Another entry at place i.
    pub fn replaced(self, i: usize, e: Entry) -> Node
        requires { i < self.count }
        ensures { Shows result (page self.level (set (held self) i e)) }
    {
        let mut n = self;
        n.entries[i] = e;
        n
    }

    // Place i goes; later entries move up one.
    pub fn without(self, i: usize) -> Node
        requires { i < self.count }
        ensures { Shows result (page self.level (without_of i (held self))) }
    {
        let mut n = self;
        let last = self.count - 1;
        n.entries[i..last].copy_from_slice(&self.entries[i + 1..self.count]);
        n.count = last;
        n
    }

    // The first k entries.
    pub fn first(self, k: usize) -> Node
        requires { k ≤ self.count }
        ensures { Shows result (page self.level (take k (held self))) }
    {
        let mut n = self;
        n.count = k;
        n
    }

    // The entries after the first k.
    pub fn rest(self, k: usize) -> Node
        requires { k ≤ self.count }
        ensures { Shows result (page self.level (drop k (held self))) }
    {
        let mut n = self;
        let count = self.count - k;
        n.entries[0..count].copy_from_slice(&self.entries[k..self.count]);
        n.count = count;
        n
    }

    // This node's entries, then the other's.
    pub fn joined(self, other: Node) -> Node
        requires { self.count + other.count ≤ 10 }
        ensures { Shows result (page self.level (held self ++ held other)) }
    {
        let mut n = self;
        let count = self.count + other.count;
        n.entries[self.count..count].copy_from_slice(other.held());
        n.count = count;
        n
    }

    // The smallest rectangle that covers all entries.
    pub fn cover(self) -> Rect
        ensures { result ≡ cover_of (held self) }
    {
        let Some((first, others)) = self.held().split_first() else {
            return Entry::blank().rect;
        };
        let mut all = first.rect;
        for e in others {
            all = all.grown(e.rect);
        }
        all
    }
}
