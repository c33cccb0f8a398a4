//! Inputs that are answered with a refusal, each with what is told of it: number, line and place.
#![tactic(auto)]

#[cfg(test)]
mod tests;
