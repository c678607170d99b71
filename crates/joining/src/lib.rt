// Enrolment on a well-formed table: the way down, the splits on the way back up, the new root.
// It promises every word of the table afterwards, by the definitions in specs/; its proofs show that the table stays well formed and gains exactly the one point.
// It stands on change (choosing, the order of nine and its cut) and table (nodes and slots).
#![tactic(auto)]

pub mod enrol;
