//! Tests of the check of a memory, and of the memory that all logs make.
#![tactic(auto)]

#[cfg(test)]
mod forest_check;
#[cfg(test)]
mod forest_flat;
