//! Tests of scripts, of generated ones too, and of the plain store.
#![tactic(auto)]

#[cfg(test)]
mod generated;
#[cfg(test)]
mod plain;
#[cfg(test)]
mod scripts;
