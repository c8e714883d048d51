// The routines of `building` that a function's body needs, each lent its part of one memory: it answers as the routine does.
#![tactic(auto, using(crate::proofs::Lending::lent_on, crate::proofs::Lending::read_on))]

ghost use Rattle.std.specs.Prelude.{◌≡◌, min};
ghost use Rattle.words.specs.Codes.{code_word, number_of};
ghost use Rattle.words.specs.Opcode.{word, to_instruction};
ghost use Rattle.words.specs.Reply.{number_of_error};
ghost use Rattle.building.specs.Emission.{emit_c, emit_last_c, emit_null_c, remove_pop_c, emit_return_c, replace_c, emit_break_c, exit_break_c};
ghost use Rattle.building.specs.Scopes.{exit_scope_c};
ghost use Rattle.building.specs.State.{with_loop};
ghost use Rattle.book_compiler.specs.Represents.{laid};
ghost use Rattle.book_compiler.specs.Leaves.{OnCode, OnNames, OnBreaks, GivesUpBreaks, DefinesLocal, AddsConstant, MarksGlobal, PushesError};
ghost use Rattle.book_compiler.specs.Leaves.{LastPosition, FindsLocal, FindsContextLocal, WaitingBreak, OnBoth, PushesBreak, mark_unmarked_c, patched};

use crate::lent::{lend, lend_with, part};
use crate::slots;
use building::function_state::FunctionState;
use building::{context, pool, taking};
use words::areas;
use words::opcode::{Instruction, OpCode};
use words::reply::CompileError;

// The word of a constant's entry that is its global mark.
const GLOBAL_MARK: usize = 2;

pub(crate) fn emit(
    starts: &[usize; 15],
    memory: &mut [u64],
    state: &mut FunctionState,
    instruction: Instruction,
    position: u64,
)
    ensures { OnCode (emit_c (code_word instruction) position) (laid state.old starts.now memory.old)
        (laid state.new starts.now memory.new) }
{
    lend_with(
        starts,
        memory,
        areas::CODE,
        state,
        |code, state| state.emit(code, instruction, position),
    );
}

pub(crate) fn emit_opcode(
    starts: &[usize; 15],
    memory: &mut [u64],
    state: &mut FunctionState,
    opcode: OpCode,
    position: u64,
)
    ensures { OnCode (emit_c (word (to_instruction (number_of opcode) 0)) position)
        (laid state.old starts.now memory.old)
        (laid state.new starts.now memory.new) }
{
    lend_with(
        starts,
        memory,
        areas::CODE,
        state,
        |code, state| state.emit_opcode(code, opcode, position),
    );
}

pub(crate) fn emit_opcode_without_position(
    starts: &[usize; 15],
    memory: &mut [u64],
    state: &mut FunctionState,
    opcode: OpCode,
)
    ensures { OnCode (emit_last_c (word (to_instruction (number_of opcode) 0)))
        (laid state.old starts.now memory.old)
        (laid state.new starts.now memory.new) }
{
    lend_with(
        starts,
        memory,
        areas::CODE,
        state,
        |code, state| state.emit_opcode_without_position(code, opcode),
    );
}

// Null at the last position.
pub(crate) fn emit_null(starts: &[usize; 15], memory: &mut [u64], state: &mut FunctionState)
    ensures { OnCode emit_null_c (laid state.old starts.now memory.old)
        (laid state.new starts.now memory.new) }
{
    lend_with(
        starts,
        memory,
        areas::CODE,
        state,
        |code, state| state.emit_null(code),
    );
}

pub(crate) fn remove_pop_or_push_null(
    starts: &[usize; 15],
    memory: &mut [u64],
    state: &mut FunctionState,
)
    ensures { OnCode remove_pop_c (laid state.old starts.now memory.old)
        (laid state.new starts.now memory.new) }
{
    lend_with(
        starts,
        memory,
        areas::CODE,
        state,
        |code, state| state.remove_pop_or_push_null(code),
    );
}

pub(crate) fn emit_return(
    starts: &[usize; 15],
    memory: &mut [u64],
    state: &mut FunctionState,
    position: u64,
)
    ensures { OnCode (emit_return_c position) (laid state.old starts.now memory.old)
        (laid state.new starts.now memory.new) }
{
    lend_with(
        starts,
        memory,
        areas::CODE,
        state,
        |code, state| state.emit_return(code, position),
    );
}

pub(crate) fn replace_instruction(
    starts: &[usize; 15],
    memory: &mut [u64],
    state: &FunctionState,
    index: usize,
    instruction: Instruction,
)
    ensures { OnCode (replace_c index (code_word instruction)) (laid state.now starts.now memory.old)
        (laid state.now starts.now memory.new) }
{
    lend(
        starts,
        memory,
        areas::CODE,
        |code| state.replace_instruction(code, index, instruction),
    );
}

pub(crate) fn get_last_position(starts: &[usize; 15], memory: &[u64], state: &FunctionState) -> u64
    ensures { LastPosition result (laid state.now starts.now memory.now) }
{
    state.get_last_position(part(starts, memory, areas::CODE))
}

pub(crate) fn find_local(
    starts: &[usize; 15],
    memory: &[u64],
    state: &FunctionState,
    name: u64,
) -> Option<u64>
    ensures { FindsLocal name result (laid state.now starts.now memory.now) }
{
    state.find_local(part(starts, memory, areas::SCOPE_NAMES), name)
}

pub(crate) fn define_local(
    starts: &[usize; 15],
    memory: &mut [u64],
    state: &mut FunctionState,
    name: u64,
) -> Option<u64>
    ensures { DefinesLocal name result (laid state.old starts.now memory.old)
        (laid state.new starts.now memory.new) }
{
    lend_with(
        starts,
        memory,
        areas::SCOPE_NAMES,
        state,
        |names, state| state.define_local(names, name),
    )
}

// `around` is the start of the scope around.
pub(crate) fn exit_scope(
    starts: &[usize; 15],
    memory: &mut [u64],
    state: &mut FunctionState,
    around: usize,
)
    ensures { OnNames (exit_scope_c around) (laid state.old starts.now memory.old)
        (laid state.new starts.now memory.new) }
{
    lend_with(
        starts,
        memory,
        areas::SCOPE_NAMES,
        state,
        |names, state| state.exit_scope(names, around),
    );
}

// The number of a constant: of the first that is the same, where its kind is shared, else of a new one; 0 with the mark set.
pub(crate) fn add_constant(
    starts: &[usize; 15],
    memory: &mut [u64],
    state: &mut FunctionState,
    kind: u64,
    value: u64,
) -> u64
    ensures { AddsConstant kind value result (laid state.old starts.now memory.old)
        (laid state.new starts.now memory.new) }
{
    if state.full != 0 {
        return 0;
    }
    if pool::is_shared(kind) {
        if let Some(index) = slots::find_constant(starts, memory, state, kind, value) {
            return index;
        }
    }
    slots::add_new_constant(starts, memory, state, kind, value)
}

// A mark that is set stays as it is.
fn mark_unmarked(constants: &mut [u64], state: &FunctionState, index: u64)
    ensures { constants.new ≡ mark_unmarked_c index state.now constants.old }
{
    let mark = areas::entry_word(
        constants,
        areas::CONSTANT_WORDS,
        index as usize,
        GLOBAL_MARK,
    );
    if mark == 0 {
        state.mark_global(constants, index);
    }
}

pub(crate) fn mark_global(
    starts: &[usize; 15],
    memory: &mut [u64],
    state: &FunctionState,
    index: u64,
)
    ensures { MarksGlobal index (laid state.now starts.now memory.old)
        (laid state.now starts.now memory.new) }
{
    lend(
        starts,
        memory,
        areas::CONSTANTS,
        |constants| mark_unmarked(constants, state, index),
    );
}

pub(crate) fn push_error(
    starts: &[usize; 15],
    memory: &mut [u64],
    state: &mut FunctionState,
    error: CompileError,
    position: u64,
    kind: u64,
    value: u64,
)
    ensures { PushesError (number_of_error error) position kind value (laid state.old starts.now memory.old)
        (laid state.new starts.now memory.new) }
{
    lend_with(
        starts,
        memory,
        areas::ERRORS,
        state,
        |errors, state| state.push_error(errors, error.number(), position, kind, value),
    );
}

// An entry of area 10 more.
fn take_break(breaks: &mut [u64], state: &mut FunctionState, index: usize)
    ensures { PushesBreak index state.old breaks.old state.new breaks.new }
{
    taking::take(
        breaks,
        areas::BREAKS,
        &mut state.full,
        &mut state.breaks,
        [index as u64],
    );
}

// An instruction that jumps out of the innermost loop.
pub(crate) fn push_break(
    starts: &[usize; 15],
    memory: &mut [u64],
    state: &mut FunctionState,
    index: usize,
)
    ensures { OnBreaks index (laid state.old starts.now memory.old)
        (laid state.new starts.now memory.new) }
{
    lend_with(
        starts,
        memory,
        areas::BREAKS,
        state,
        |breaks, state| take_break(breaks, state, index),
    );
}

// The innermost loop's breaks given up.
pub(crate) fn give_up_breaks(starts: &[usize; 15], memory: &mut [u64], state: &FunctionState)
    ensures { GivesUpBreaks (laid state.now starts.now memory.old)
        (laid state.now starts.now memory.new) }
{
    lend(
        starts,
        memory,
        areas::BREAKS,
        |breaks| taking::give_up(breaks, areas::BREAK_WORDS, state.break_base, state.breaks),
    );
}

// Break i of those that wait.
pub(crate) fn break_at(starts: &[usize; 15], memory: &[u64], state: &FunctionState, i: usize) -> u64
    ensures { WaitingBreak i result (laid state.now starts.now memory.now) }
{
    areas::entry_word(
        part(starts, memory, areas::BREAKS),
        areas::BREAK_WORDS,
        i,
        0,
    )
}

// The book's context locals are entries `start` up to `count` of area 7.
pub(crate) fn find_context_local(
    starts: &[usize; 15],
    memory: &[u64],
    state: &FunctionState,
    start: usize,
    count: usize,
    name: u64,
) -> Option<u64>
    ensures { FindsContextLocal start count name result (laid state.now starts.now memory.now) }
{
    context::find_context_local(
        part(starts, memory, areas::CONTEXT_LOCALS),
        start,
        count,
        name,
    )
}

// Outside of a loop nothing. The two parts are lent one after the other.
pub(crate) fn emit_break(
    starts: &[usize; 15],
    memory: &mut [u64],
    state: &mut FunctionState,
    position: u64,
)
    ensures { OnBoth (emit_break_c position) (laid state.old starts.now memory.old)
        (laid state.new starts.now memory.new) }
{
    if state.in_loop {
        let index = state.get_next_instruction_index();
        emit_opcode(starts, memory, state, OpCode::Jump, position);
        push_break(starts, memory, state, index);
    }
}

// The innermost loop's breaks jump to the next instruction.
fn patch_breaks(starts: &[usize; 15], memory: &mut [u64], state: &FunctionState)
    ensures { OnBoth patched (laid state.now starts.now memory.old)
        (laid state.now starts.now memory.new) }
{
    let next = state.get_next_instruction_index();
    let instruction = OpCode::Jump.to_instruction(next as u64);
    for i in state.break_base..state.breaks {
        let index = break_at(starts, memory, state, i);
        replace_instruction(starts, memory, state, index as usize, instruction);
    }
}

// The loop around is the innermost: `start` and `inside` are its.
fn leave_break_scope(state: &mut FunctionState, start: usize, inside: bool)
    ensures { state.new ≡ with_loop (min state.old.break_base state.old.breaks) start inside state.old }
{
    state.breaks = state.break_base.min(state.breaks);
    state.break_base = start;
    state.in_loop = inside;
}

// `around` and `inside` are those of the loop around.
pub(crate) fn exit_break_scope(
    starts: &[usize; 15],
    memory: &mut [u64],
    state: &mut FunctionState,
    around: usize,
    inside: bool,
)
    ensures { OnBoth (exit_break_c around inside) (laid state.old starts.now memory.old)
        (laid state.new starts.now memory.new) }
{
    if state.full != 0 {
        return;
    }
    patch_breaks(starts, memory, state);
    give_up_breaks(starts, memory, state);
    leave_break_scope(state, around, inside);
}
