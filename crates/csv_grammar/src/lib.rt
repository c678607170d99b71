// The fields of a comma-separated record by the grammar of RFC 4180: which are sound, and what they say once unquoted.
// It promises, by the definitions in specs/, whether a field is sound, and the stretch of it that is read as a number.
// It stands on cuts (where the fields end) and sheet (bytes).
#![tactic(auto)]

pub mod bare;
pub mod grammar;
