// The public library: check, enrol, withdraw, query, with every refusal of document 01.
// It promises for all inputs what each call returns and what every lent word holds afterwards.
// Only the calls named `.._passing` have a `requires`: that the table passes the check, and of `answers_passing` that the lent slate has room. The job sheet knows both.
// It stands on audit (the check), refusals (when a call refuses), change (enrolment and withdrawal), filter (the query's definitions), asking and listing (the query), naming (the card). Its proofs hold the three demands.
// Kept: that a table passes the check is asked by `.._passing`, and by what stands below and above them, as a `requires`, and is no type: README and docs name these calls and what they ask. A number, a place and a k are asked for one by one, as the calls for C have them.
#![tactic(auto)]

pub mod answers;
pub mod cards;
pub mod check;
pub mod enrol;
pub mod query;
pub mod withdraw;
