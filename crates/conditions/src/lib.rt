// The verification condition of a routine, as a node of a formula store.

#![tactic(auto)]

pub mod calls;
mod forms;
mod making;
mod rows;
mod stacks;
mod terms;
