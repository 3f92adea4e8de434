//! Tests of pages, catalogs, scans and the pages of a transaction.
#![tactic(auto)]

#[cfg(test)]
mod catalogs;
#[cfg(test)]
mod overlays;
#[cfg(test)]
mod pages;
#[cfg(test)]
mod scans;
