// `runtime/program.rs`: a function's record in area 3, and its instructions as the part of code memory that they occupy.
ghost use Rattle.std.specs.Prelude.{◌≡◌};
ghost use Rattle.words.specs.Codes.{code_word, read_word};
ghost use Rattle.words.specs.Program.{function_at, code_of, instruction_word, instruction_position};

use crate::areas::{CODE_WORDS, FUNCTION_WORDS, entry_word};
use crate::opcode::Instruction;

// The words of an entry of code, and of one of functions.
pub const INSTRUCTION: usize = 0;

pub const POSITION: usize = 1;

pub const PARAMETERS: usize = 0;

pub const LOCALS: usize = 1;

pub const RESCUE: usize = 2;

pub const INSTANCE: usize = 3;

pub const START: usize = 4;

pub const LENGTH: usize = 5;

pub const FILE: usize = 6;

pub const NAME: usize = 7;

// `Function`: the words of an entry of area 3, in their order.
#[derive(Clone, Copy)]
pub struct FunctionRecord {
    pub parameters: u64,
    pub locals: u64,
    pub rescue: u64,
    pub instance: u64,
    pub start: u64,
    pub length: u64,
    pub file: u64,
    pub name: u64,
}

// Function i of area 3; 0 in every word that is not there.
#[tactic(auto, unfolding(crate::specs::Areas::entry_field))]
pub fn function_record(functions: &[u64], i: usize) -> FunctionRecord
    ensures { result ≡ function_at functions.now i }
{
    FunctionRecord {
        parameters: entry_word(functions, FUNCTION_WORDS, i, PARAMETERS),
        locals: entry_word(functions, FUNCTION_WORDS, i, LOCALS),
        rescue: entry_word(functions, FUNCTION_WORDS, i, RESCUE),
        instance: entry_word(functions, FUNCTION_WORDS, i, INSTANCE),
        start: entry_word(functions, FUNCTION_WORDS, i, START),
        length: entry_word(functions, FUNCTION_WORDS, i, LENGTH),
        file: entry_word(functions, FUNCTION_WORDS, i, FILE),
        name: entry_word(functions, FUNCTION_WORDS, i, NAME),
    }
}

// `get_instruction`'s list: the function's code entries, where they stand. A record that does not fit has none.
#[tactic(auto, unfolding(crate::specs::Program::code_of))]
pub fn code_of(code: &[u64], f: FunctionRecord) -> &[u64]
    ensures { result.now ≡ code_of code.now f }
{
    let start = f.start as usize;
    let length = f.length as usize;
    let entries = code.len() / CODE_WORDS;
    if start <= entries && length <= entries - start {
        return &code[start * CODE_WORDS..(start + length) * CODE_WORDS];
    }
    &[]
}

// Instruction i of such a part; outside it, `Unknown` of 0.
#[tactic(auto, unfolding(crate::specs::Areas::entry_field))]
pub fn instruction_at(part: &[u64], i: usize) -> Instruction
    ensures { code_word result ≡ read_word (instruction_word part.now i) }
{
    Instruction::from(entry_word(part, CODE_WORDS, i, INSTRUCTION))
}

// The position of instruction i; 0 outside.
#[tactic(auto, unfolding(crate::specs::Areas::entry_field))]
pub fn position_at(part: &[u64], i: usize) -> u64
    ensures { result ≡ instruction_position part.now i }
{
    entry_word(part, CODE_WORDS, i, POSITION)
}
