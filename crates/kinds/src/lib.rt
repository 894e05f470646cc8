// What every layer above builds on: kinds of value, the three sorts of number that name things, and the refusals.

#![tactic(auto)]

pub mod flags;
pub mod kind;
pub mod numbered;
pub mod numbers;
pub mod refusals;
