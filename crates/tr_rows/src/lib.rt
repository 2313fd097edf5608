//! Tests of whole runs, each against values worked out by hand or against a plain program that shares no code with the
//! one that it judges.
#![tactic(auto)]

#[cfg(test)]
mod tests;
