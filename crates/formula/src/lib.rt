// Formula stores: what a store is, and two of them.

#![tactic(auto)]

pub mod evaluators;
mod nodes;
pub mod stores;
pub mod tables;
