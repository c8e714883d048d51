// Lines of right-justified numbers, as 01's listing has them: the column writer on a slice and an offset (`place`), and the writer that carries the
// buffer it fills (`writer`).
#![tactic(auto)]

pub mod place;
pub mod writer;
