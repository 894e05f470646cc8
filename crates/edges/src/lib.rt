// Tests of every limit: the last accepted value and the first refused one; and passive forms worked out by hand.

#![tactic(auto)]

#[cfg(test)]
mod forms;
#[cfg(test)]
mod registers;
#[cfg(test)]
mod routines;
pub mod rows;
#[cfg(test)]
mod stores;
