// The walk for a card: down the tree, the entries of a node nearest first, up to the first box that cannot hold a better holder than the k found.
// It promises that the names are those of the card's definition, in card order, and where a station stands.
// It stands on card (the definition), filter (a node's entries nearest first), table (slots) and grid (distances); its proofs stand on vetting (the points below a node) and rules.
#![tactic(auto)]

pub mod best;
pub mod down;
pub mod find;
pub mod holder;
pub mod names;
