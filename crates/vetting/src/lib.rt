// The final test of the candidates, by the meaning, against the whole table; and the answer list.
// It promises that exactly the candidates that pass are kept, and that their numbers rise, by the definitions in specs/.
// It stands on leads (the candidates in rows), filter (the query's meaning), table (nodes and slots), grid (distances) and order; its proofs stand on rules (what a well-formed table stores).
#![tactic(auto)]

pub mod answering;
pub mod keep;
pub mod test;
