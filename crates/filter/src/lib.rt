// The filter walk of the reverse k-nearest query on a well-formed table, over four plain rows.
// It promises the candidates and the opened nodes of the definitions in specs/; its proofs hold that the answers of the walk are those of the query's meaning.
// It stands on table (nodes and slots), leads (the candidates in rows, and the two tests), grid (distances) and order (the stable order); its definitions on record (what a candidate's record is); its proofs stand on rules (what a well-formed table stores).
#![tactic(auto)]

pub mod candidate;
pub mod find;
pub mod nearest;
pub mod rows;
pub mod seen;
pub mod walk;
