// 2026-12, 'A quicker constant search': the plain search of the constants' pool, and beside it one through a lent table of slots. Every routine is total.
#![tactic(auto)]

pub mod plain;
pub mod slots;
