//! Tests of the commit protocol: coordinators and recoveries over what nodes answer, also real
//! ones, and the flat memory of a log.
#![tactic(auto)]

#[cfg(test)]
mod coordinator;
#[cfg(test)]
mod one_id;
#[cfg(test)]
mod recovery;
#[cfg(test)]
mod recovery_nodes;
