#![tactic(auto)]

// The seven rules of document 01 as definitions (specs/Rules.antt), and what follows from them alone: a table is well formed exactly if it is empty or holds a sound tree.
// It has no code, so that an edit of a rule is refused here with no function to check again. It promises that theorem (proofs/WellFormed.antt), that the tree is one (Unique.antt), its size, and what such a table has.
// It stands on table (words, slots, stations, trees) and below.
