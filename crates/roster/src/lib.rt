// The roster: a station list from the office, record by record, as the E lines of a job sheet and the reports of its faulty records.
// It promises, by the definitions in specs/, every byte of both for every file, and that each record comes through exactly once.
// It stands on cuts and csv_grammar (records and fields), jobs (numbers), limits (3 and 4), grid (a site) and slip (the bytes of a line).
#![tactic(auto)]

pub mod asked;
pub mod lines;
pub mod list;
