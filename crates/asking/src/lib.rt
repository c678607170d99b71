// The whole query on a well-formed table: the walk, the final test, the answers.
// It promises the answers, the counts, and what is left in the rows that it writes on, as filter's definitions name them.
// It stands on filter, whose walk is proved over plain rows of numbers, and vetting.
#![tactic(auto)]

pub mod answer;
pub mod slate;
