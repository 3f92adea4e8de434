//! Tests of a log on a disk in memory.
#![tactic(auto)]

#[cfg(test)]
mod appended;
#[cfg(test)]
mod damaged;
#[cfg(test)]
mod logs;
#[cfg(test)]
mod shortened;
