// Functions over their instructions: jumps and locals. An instruction in several functions keeps the bounds of each.
ghost use Rattle.std.specs.Prelude.{◌+◌, ◌≤◌, ◌≡◌, length};
ghost use Rattle.words.specs.Areas.{entries_in};
ghost use Rattle.program_check.specs.Functions.{code_and, range_keeps, function_keeps, functions_keep};

use crate::instructions::{jump_of, locals_needed};
use words::areas::{CODE_WORDS, FUNCTION_WORDS, FUNCTIONS, entries_in, entry_word};
use words::program::{INSTRUCTION, LENGTH, LOCALS, START};
use words::reply::Totals;

// So many instructions from one on, against a function's length and locals.
#[tactic(auto, using(crate::proofs::FunctionTests::range_turn, crate::proofs::FunctionTests::range_no, crate::proofs::FunctionTests::range_done))]
fn range_keeps(code: &[u64], from: u64, count: u64, size: u64, locals: u64) -> bool
    requires { from + count ≤ length code.now }
    ensures { result ≡ range_keeps code.now from count size locals }
{
    for k in 0..count {
        let at = (from + k) as usize;
        let word = entry_word(code, CODE_WORDS, at, INSTRUCTION);
        let jump = jump_of(word);
        let needed = locals_needed(word);
        let keeps = (jump <= size) & (needed <= locals);
        if !keeps {
            return false;
        }
    }
    true
}

// Function j over what it has of area 1: a function that reaches outside binds what it has inside.
fn function_keeps(code: &[u64], functions: &[u64], j: usize, totals: Totals) -> bool
    requires { totals.code ≤ entries_in 2 (length code.now) }
    ensures { result ≡ function_keeps (code_and code.now functions.now totals) j }
{
    let locals = entry_word(functions, FUNCTION_WORDS, j, LOCALS);
    let start = entry_word(functions, FUNCTION_WORDS, j, START);
    let size = entry_word(functions, FUNCTION_WORDS, j, LENGTH);
    if totals.code < start {
        return true;
    }
    let left = totals.code - start;
    let count = size.min(left);
    range_keeps(code, start, count, size, locals)
}

pub(crate) fn functions_keep(code: &[u64], functions: &[u64], totals: Totals) -> bool
    requires { totals.code ≤ entries_in 2 (length code.now) }
    ensures { result ≡ functions_keep (code_and code.now functions.now totals) }
{
    let held = entries_in(FUNCTIONS, functions.len()) as u64;
    let count = totals.functions.min(held);
    for j in 0..count as usize {
        if !function_keeps(code, functions, j, totals) {
            return false;
        }
    }
    true
}
