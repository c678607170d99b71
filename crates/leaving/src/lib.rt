// Withdrawal on a well-formed table: the entry removed, nodes joined or shared out, boxes made tight, the root lowered.
// It promises every word of the table afterwards, by the definitions in specs/; its proofs show that the table stays well formed and loses exactly the one point.
// It stands on change (the order of nine or ten and its cut) and table (nodes and slots).
#![tactic(auto)]

pub mod withdraw;
