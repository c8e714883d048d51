// An instruction by itself: its opcode, its operand against the totals, and what it asks of each function that has it.
ghost use Rattle.std.specs.Prelude.{◌≡◌, []};
ghost use Rattle.words.specs.Areas.{code_area};
ghost use Rattle.definition.specs.Book.{has_text};
ghost use Rattle.definition.specs.Within.{class_of, bound_by_totals};
ghost use Rattle.definition.specs.ProgramCheck.{opcodes, is_operation};
ghost use Rattle.program_check.specs.Instructions.{class_in, jump_of, locals_needed};
ghost use Rattle.program_check.specs.Parts.{lent, alone, entry_fine};

use crate::entries::implies;
use words::areas::{CODE_WORDS, entry_word};
use words::opcode::{OPCODE_UNIT, OPERATION_AND, OPERATION_LESS_EQUAL, OPERATION_OR, OpCode};
use words::program::{INSTRUCTION, POSITION};
use words::record::in_place;
use words::reply::Totals;

// What an operand is.
#[derive(Clone, Copy, PartialEq, Eq)]
enum Class {
    Position,
    Slot,
    Read,
    Pool,
    ContextSlot,
    Other,
}

// What the operand is, by opcode; opcodes that are none are among the others.
fn class_of(opcode: u64) -> Class
    ensures { result ≡ class_in (class_of opcode) }
{
    match OpCode::from(opcode) {
        OpCode::Jump | OpCode::JumpIf => Class::Position,
        OpCode::LocalSet | OpCode::LocalInit | OpCode::ForNext | OpCode::Iterate => Class::Slot,
        OpCode::LocalGet => Class::Read,
        OpCode::PushConstant | OpCode::GlobalSet | OpCode::GlobalGet => Class::Pool,
        OpCode::ContextSet | OpCode::ContextGet => Class::ContextSlot,
        _ => Class::Other,
    }
}

#[tactic(auto, using(crate::proofs::InstructionTests::unknown_is, crate::proofs::InstructionTests::known_is))]
fn is_opcode(opcode: u64) -> bool
    ensures { result ≡ has_text opcode opcodes }
{
    !matches!(OpCode::from(opcode), OpCode::Unknown)
}

// `operations.rs`: add to less or equal, and, or.
fn is_operation(n: u64) -> bool
    ensures { result ≡ is_operation n }
{
    (n <= OPERATION_LESS_EQUAL) | (n == OPERATION_AND) | (n == OPERATION_OR)
}

// Whether the constant or the context local that an operand names is there.
#[tactic(auto, using(crate::proofs::InstructionTests::pool_bound, crate::proofs::InstructionTests::context_bound, crate::proofs::InstructionTests::no_bound))]
fn operand_fine(opcode: u64, operand: u64, totals: Totals) -> bool
    ensures { result ≡ bound_by_totals (class_of opcode) (lent [] totals) operand }
{
    match class_of(opcode) {
        Class::Pool => operand < totals.constants,
        Class::ContextSlot => operand < totals.context_locals,
        _ => true,
    }
}

pub(crate) fn code_fine(code: &[u64], i: usize, totals: Totals) -> bool
    ensures { result ≡ entry_fine (alone code_area code.now totals) code_area i }
{
    let word = entry_word(code, CODE_WORDS, i, INSTRUCTION);
    let position = entry_word(code, CODE_WORDS, i, POSITION);
    let opcode = word / OPCODE_UNIT;
    let operand = word % OPCODE_UNIT;
    let within = operand_fine(opcode, operand, totals);
    let operation = implies(opcode == OpCode::Operation as u64, is_operation(operand));
    within & ((is_opcode(opcode) & operation) & in_place(position))
}

// The length that an instruction's jump needs.
#[tactic(auto, using(crate::proofs::InstructionTests::jump_is, crate::proofs::InstructionTests::jump_none))]
pub(crate) fn jump_of(word: u64) -> u64
    ensures { result ≡ jump_of word }
{
    match class_of(word / OPCODE_UNIT) {
        Class::Position => word % OPCODE_UNIT,
        _ => 0,
    }
}

// The locals that an instruction needs. A read of local 0 needs none.
#[tactic(auto, using(crate::proofs::InstructionTests::slot_needs, crate::proofs::InstructionTests::read_needs, crate::proofs::InstructionTests::none_needs))]
pub(crate) fn locals_needed(word: u64) -> u64
    ensures { result ≡ locals_needed word }
{
    let operand = word % OPCODE_UNIT;
    match class_of(word / OPCODE_UNIT) {
        Class::Slot => operand + 1,
        Class::Read if operand != 0 => operand + 1,
        _ => 0,
    }
}
