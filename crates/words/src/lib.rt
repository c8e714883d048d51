// The words layer: opcodes and instructions, constants, records and the entries of the twelve areas.
#![tactic(auto)]

pub mod areas;
pub mod node;
pub mod object;
pub mod opcode;
pub mod program;
pub mod record;
pub mod reply;
pub mod row;
pub mod search;

// A number that no case of an enum has, where one is read as that enum.
#[derive(Clone, Copy, PartialEq, Eq)]
pub struct UnknownNumber(pub u64);
