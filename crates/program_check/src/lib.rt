// The program check (02, 2026-01): whether words and totals that somebody lends are a program, and if not, the first area that fails.
#![tactic(auto)]

mod areas;
mod constants;
mod entries;
mod functions;
mod instructions;
mod keys;
mod whole;

ghost use Rattle.std.specs.Prelude.{◌≡◌};
ghost use Rattle.definition.specs.Promise.{lent_counted};
ghost use Rattle.definition.specs.Trial.{counted_fault};
ghost use Rattle.program_check.specs.Answer.{answer_of};
ghost use Rattle.program_check.specs.OneMemory.{areas_in};

use crate::whole::area_passes;
use memory::starts_of;
use words::areas::{
    BOOKS, BREAKS, CODE, CONSTANTS, CONTEXT_LOCALS, FUNCTIONS, METHODS, MODELS, PROPERTIES,
    PUBLIC_NAMES, SCOPE_NAMES,
};
use words::reply::Totals;
use words::row::{Refused, Row};

// "row 3 with place 1,048,576 plus the area number".
const PROGRAM_PLACE: usize = 1048576;

// "A lent count outside 1 to 4,294,967,294 fails the program check at area 12" (2026-08).
const MOST_BUNDLES: u64 = 4294967294;

// The areas that are looked at, in their order: all but the listed errors.
const CHECKED: [u64; 11] = [
    CODE,
    CONSTANTS,
    FUNCTIONS,
    MODELS,
    PROPERTIES,
    METHODS,
    CONTEXT_LOCALS,
    PUBLIC_NAMES,
    SCOPE_NAMES,
    BREAKS,
    BOOKS,
];

// The program check of areas that one memory has, one after the other by number: any words, lengths and totals; nothing is written.
pub fn check_program(memory: &[u64], lengths: [usize; 12], totals: Totals) -> Result<(), Refused>
    ensures { result ≡ answer_of (counted_fault (lent_counted (areas_in lengths memory.now) totals)) }
{
    let starts = starts_of(lengths, memory.len());
    for area in CHECKED {
        if !area_passes(memory, &starts, area, totals) {
            return Err(Row::BadShape.at(PROGRAM_PLACE + area as usize));
        }
    }
    if totals.bundles < 1 || totals.bundles > MOST_BUNDLES {
        return Err(Row::BadShape.at(PROGRAM_PLACE + BOOKS as usize));
    }
    Ok(())
}
