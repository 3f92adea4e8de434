//! Tests of a node.
#![tactic(auto)]

#[cfg(test)]
mod long_logs;
#[cfg(test)]
mod nodes;
#[cfg(test)]
mod shortening;
