// Column files of 01, 'The tree', and records: right-justified numbers, lines, and the two converters.
#![tactic(auto)]

pub mod line;
pub mod number;
