// The grid: places and rectangles, each measure made of two axes, and the one word that decides what is as near.
// It promises, for every place and every rectangle on the grid, the exact number that its definition in specs/ gives.
// It stands on axis (spans) and words (definitions alone).
#![tactic(auto)]

pub mod place;
pub mod rect;
pub mod site;
