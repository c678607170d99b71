// The query with its candidates listed: those that the walk noted in plain rows go over to a lent list of records.
// It promises the list, the answers and the counts that filter's definitions name.
// It stands on asking (the query itself), leads (how the rows are read) and record, whose list gets the records made of the rows.
#![tactic(auto)]

pub mod hand;
pub mod listed;
