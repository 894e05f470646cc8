// The register of conditions.

#![tactic(auto)]

pub mod entries;
pub mod registers;
