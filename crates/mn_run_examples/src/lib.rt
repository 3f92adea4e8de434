//! Worked examples of the definitions of runs, by computation: proofs alone.
#![tactic(auto)]
