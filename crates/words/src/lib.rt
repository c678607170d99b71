// Words: where a word of a table becomes a number of steps or a natural number, and where one of these becomes a word.
// It promises, for every word, the exact number that its definition in specs/ gives.
// It stands on axis (which steps are on the grid) and on the lists of order.
#![tactic(auto)]

pub mod border;
pub mod lent;
