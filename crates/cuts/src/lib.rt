// Where the parts of a comma-separated file end: its records, and the fields of a record.
// It promises which bytes each part is, by the definitions in specs/: both are cut by one rule, at the marks that have an even number
// of quote marks before them. Whether a field is sound is said in csv_grammar.
// It stands on sheet (bytes) and order (lists).
#![tactic(auto)]

pub mod fields;
pub mod parts;
