//! The yearly statement: drawn as a draft, confirmed by the grid operator's totals, filed under a number, and printed; and the print of a refusal.
#![tactic(auto)]

pub mod confirmed;
pub mod draft;
pub mod filed;
pub mod refusal;
pub mod refusal_note;
pub mod statement;
pub mod text;
