// One axis: what is measured in steps along it.
// It promises, for every coordinate on the grid, the exact number that its definition in specs/ gives.
// It stands on nothing.
#![tactic(auto)]

pub mod span;
