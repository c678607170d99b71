// The lent table: its slots, a node by value, and the answers that calls give.
// It promises that a slot written holds its node, that every other word stays, and that what was written is read back.
// It stands on axis (spans), words, grid (rectangles), order (lists) and figures.
#![tactic(auto)]

pub mod given;
pub mod node;
pub mod part;
pub mod slot;
