// The worked examples of docs/SCOPE.md: specs/Cases.antt has them all, proved from the definitions of the crates below.
#![tactic(auto)]
