// Routines in tables: their rows, and the check that accepts or refuses them.

#![tactic(auto)]

pub mod checks;
pub mod limits;
mod macros;
pub mod rows;
