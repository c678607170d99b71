// Empty: the laws that walks of a function's MIR by hand shared stood here. Today's check makes those walks itself (docs/PORT.md).
#![tactic(auto)]
