//! Reads the lines of a text file of meter readings: its heading, the names of its columns, and its values.
#![tactic(auto)]

pub mod column;
pub mod columns;
mod fields;
pub mod misread;
pub mod names;
pub mod rows;
pub mod text;
pub mod values;
