// 2026-01: what a bundle that is laid on may change of a program that stands, noted in the program's own words, settled at a delivery and given back at a
// refusal. Every routine is total on any words.
#![tactic(auto)]

pub mod marks;
pub mod methods;
