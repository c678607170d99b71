// The card of a station as a definition, with no code: its k nearest other holders. Its proofs hold the laws that a reader wants of it, as CardLaws.
// It stands on filter (who another holder is), table (the stations), grid (distances) and order (the stable order). The walk that finds it is in naming.
#![tactic(auto)]
