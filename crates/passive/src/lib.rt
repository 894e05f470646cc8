// The passive form of a routine: its rows. What it means, and that it agrees with the routine's runs, stands in specs/ and proofs/.

#![tactic(auto)]

pub mod rows;
