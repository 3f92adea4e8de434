//! Tests of the log of a run and of its history.
#![tactic(auto)]

#[cfg(test)]
mod histories;
#[cfg(test)]
mod merging;
