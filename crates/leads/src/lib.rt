// The candidates of a query in plain rows, relative to its place q: how one is laid and read back, and how many of them are as near to a place, or to a whole box, as q is.
// It promises these counts exactly as the four corners and the distances of grid have them. It stands on grid and order (counts).
#![tactic(auto)]

pub mod count;
pub mod row;
