// Measuring a routine's passive form, and writing it.

#![tactic(auto)]

pub mod calls;
mod maps;
mod measuring;
mod passing;
mod writing;
