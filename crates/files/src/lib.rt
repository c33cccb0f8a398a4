//! An input from its first byte to the text that answers it: its lines are read and entered in a book, and the statement is printed, or the first refusal.
#![tactic(auto)]

pub mod split;
mod stop;
pub mod stream;
