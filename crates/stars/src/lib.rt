#![tactic(auto)]

// Document 01's starred cases, gathered under a single statement (specs/Stars.antt) and computed from the definitions that the promises cite.
// It has no code: it promises that one theorem. It stands on desk and below.
