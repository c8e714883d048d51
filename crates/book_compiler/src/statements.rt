// The compilers of statements. `start` and `count` are those of the book's context locals.
ghost use Rattle.std.specs.Prelude.{◌≡◌};
ghost use Rattle.definition.specs.Compiler.{compile_rescue};
ghost use Rattle.compiler_laws.specs.ForStatements.{found_or_zero};
ghost use Rattle.book_compiler.specs.Represents.{laid, Simulates};
ghost use Rattle.book_compiler.specs.Members.{token, LoopStarts, LoopHead, LoopName, LoopEnd};
ghost use Rattle.book_compiler.specs.Members.{CompilesStatement, CompilesVariables, CompilesBlock, CompilesForStatement};

use crate::expressions::compile_expression;
use crate::subtree::{Subtrees, skip};
use crate::{expressions, function_state};
use building::function_state::FunctionState;
use words::opcode::OpCode;
use words::record::{RecordKind, field};
use words::reply::CompileError;
use words::{object, record};

// A rescue part: only where a statement is not inside another.
fn rescue(
    starts: &[usize; 15],
    memory: &mut [u64],
    state: &mut FunctionState,
    position: u64,
    kind: u64,
    value: u64,
)
    ensures { Simulates (laid state.old starts.now memory.old)
        (laid state.new starts.now memory.new)
        (compile_rescue (token position kind value)) }
{
    if state.full != 0 {
        return;
    }
    if 1 < state.depth {
        function_state::push_error(
            starts,
            memory,
            state,
            CompileError::RescueInLayer,
            position,
            kind,
            value,
        );
        return;
    }
    function_state::emit_return(starts, memory, state, position);
    state.set_rescue();
}

// The locals of a loop's enumerable and iterator, its scope and its breaks.
fn start_loop(state: &mut FunctionState)
    ensures { LoopStarts state.old state.new }
{
    state.define_anonymous_local();
    state.define_anonymous_local();
    state.enter_scope();
    state.enter_break_scope();
}

// The enumerable and the iterator into their locals.
fn begin_loop(
    starts: &[usize; 15],
    memory: &mut [u64],
    state: &mut FunctionState,
    position: u64,
    enumerable: u64,
)
    ensures { LoopHead enumerable position (laid state.old starts.now memory.old)
        (laid state.new starts.now memory.new) }
{
    let set = OpCode::LocalSet.to_instruction(enumerable);
    function_state::emit(starts, memory, state, set, position);
    function_state::emit_opcode_without_position(starts, memory, state, OpCode::Pop);
    expressions::constant(starts, memory, state, object::INTEGER, 0, position);
    let iterator = std::num::wrapping_add_u64(enumerable, 1);
    let zero = OpCode::LocalSet.to_instruction(iterator);
    function_state::emit(starts, memory, state, zero, position);
    function_state::emit_opcode_without_position(starts, memory, state, OpCode::Pop);
}

// A local's number. The Rust unwraps: a loop's name is in a scope just entered, so it is found.
fn found_or_zero(found: Option<u64>) -> u64
    ensures { result ≡ found_or_zero found }
{
    found.unwrap_or(0)
}

// Where a loop starts, and where the jump out of it stands.
#[derive(Clone, Copy)]
struct LoopEntry {
    first: usize,
    exit: usize,
}

// A turn's start: the next element or the exit, and the element into the local of the loop's name.
fn name_loop(
    starts: &[usize; 15],
    memory: &mut [u64],
    state: &mut FunctionState,
    position: u64,
    text: u64,
    text_position: u64,
    enumerable: u64,
) -> LoopEntry
    ensures { LoopName position text text_position enumerable result (laid state.old starts.now memory.old)
        (laid state.new starts.now memory.new) }
{
    let found = function_state::define_local(starts, memory, state, text);
    let index = found_or_zero(found);
    let first = state.get_next_instruction_index();
    let next = OpCode::ForNext.to_instruction(enumerable);
    function_state::emit(starts, memory, state, next, position);
    let exit = state.get_next_instruction_index();
    function_state::emit_opcode_without_position(starts, memory, state, OpCode::JumpIf);
    let set = OpCode::LocalSet.to_instruction(index);
    function_state::emit(starts, memory, state, set, text_position);
    function_state::emit_opcode_without_position(starts, memory, state, OpCode::Pop);
    LoopEntry { first, exit }
}

// A turn's end: the next element, and back. Then out of the loop, to the scope and the breaks around it.
fn end_loop(
    starts: &[usize; 15],
    memory: &mut [u64],
    state: &mut FunctionState,
    around: FunctionState,
    first: usize,
    exit: usize,
)
    ensures { LoopEnd around first exit (laid state.old starts.now memory.old)
        (laid state.new starts.now memory.new) }
{
    let position = function_state::get_last_position(starts, memory, state);
    let iterator = std::num::wrapping_add_u64(around.local_count, 1);
    let iterate = OpCode::Iterate.to_instruction(iterator);
    function_state::emit(starts, memory, state, iterate, position);
    let last = function_state::get_last_position(starts, memory, state);
    let again = OpCode::Jump.to_instruction(first as u64);
    function_state::emit(starts, memory, state, again, last);
    let next = state.get_next_instruction_index();
    let out = OpCode::JumpIf.to_instruction(next as u64);
    function_state::replace_instruction(starts, memory, state, exit, out);
    function_state::exit_break_scope(starts, memory, state, around.break_base, around.in_loop);
    function_state::exit_scope(starts, memory, state, around.scope_base);
}

// `compile_statement`: one deeper, and back.
#[cycle(statements_and_expressions)]
pub(crate) fn compile_statement(
    tree: &[u64],
    at: usize,
    end: usize,
    starts: &[usize; 15],
    memory: &mut [u64],
    state: &mut FunctionState,
    start: usize,
    count: usize,
)
    ensures { CompilesStatement tree.now at end start count (laid state.old starts.now memory.old)
        (laid state.new starts.now memory.new) }
{
    if state.full != 0 {
        return;
    }
    if end <= at {
        return;
    }
    let number = field(tree, at, record::KIND);
    let position = field(tree, at, record::POSITION);
    let depth = state.depth;
    state.deeper();
    let kind = RecordKind::try_from(number).unwrap_or(RecordKind::ReturnStatement);
    match kind {
        RecordKind::ExpressionStatement => {
            compile_expression(tree, at + 1, end, starts, memory, state, start, count);
            function_state::emit_opcode_without_position(starts, memory, state, OpCode::Pop);
        }
        RecordKind::LocalStatement => {
            compile_variables(tree, at + 1, end, starts, memory, state, start, count);
        }
        RecordKind::ForStatement => compile_for_statement(
            tree,
            at + 1,
            end,
            starts,
            memory,
            state,
            start,
            count,
            position,
        ),
        RecordKind::BreakStatement => function_state::emit_break(starts, memory, state, position),
        RecordKind::RescueStatement => {
            let value = field(tree, at, record::VALUE);
            rescue(starts, memory, state, position, number, value);
        }
        _ => function_state::emit_return(starts, memory, state, position),
    }
    state.set_depth(depth);
}

// The variables of a local statement from a place up to the end.
#[cycle(statements_and_expressions)]
fn compile_variables(
    tree: &[u64],
    at: usize,
    end: usize,
    starts: &[usize; 15],
    memory: &mut [u64],
    state: &mut FunctionState,
    start: usize,
    count: usize,
)
    ensures { CompilesVariables tree.now at end start count (laid state.old starts.now memory.old)
        (laid state.new starts.now memory.new) }
{
    let mut i = at;
    // No `Subtrees`: a step goes over two records, a name and the subtree of its value.
    while i < end {
        let text = field(tree, i, record::VALUE);
        let place = field(tree, i, record::POSITION);
        let next = skip(tree, i + 1, end);
        if let Some(index) = function_state::define_local(starts, memory, state, text) {
            let value_kind = field(tree, i + 1, record::KIND);
            if value_kind == record::ABSENT {
                i = next;
                continue;
            }
            compile_expression(tree, i + 1, next, starts, memory, state, start, count);
            let instruction = OpCode::LocalInit.to_instruction(index);
            function_state::emit(starts, memory, state, instruction, place);
            i = next;
            continue;
        }
        let name_kind = field(tree, i, record::KIND);
        function_state::push_error(
            starts,
            memory,
            state,
            CompileError::VariableExists,
            place,
            name_kind,
            text,
        );
        i = next;
    }
}

// A part of an if: its statements in a scope, then their value; null where there is no part. The loop over statements stands here and at the for: a member of
// the cycle that had it would call with the span that it was called with.
#[cycle(statements_and_expressions)]
pub(crate) fn compile_block(
    tree: &[u64],
    at: usize,
    end: usize,
    starts: &[usize; 15],
    memory: &mut [u64],
    state: &mut FunctionState,
    start: usize,
    count: usize,
)
    ensures { CompilesBlock tree.now at end start count (laid state.old starts.now memory.old)
        (laid state.new starts.now memory.new) }
{
    if at < end {
        let around = state.scope_base;
        state.enter_scope();
        for statement in (Subtrees {
            tree,
            at: at + 1,
            end,
        }) {
            compile_statement(
                tree,
                statement.at,
                statement.end,
                starts,
                memory,
                state,
                start,
                count,
            );
        }
        function_state::exit_scope(starts, memory, state, around);
        function_state::remove_pop_or_push_null(starts, memory, state);
        return;
    }
    function_state::emit_null(starts, memory, state);
}

// `compile_for_statement`: the name, the expression and the statements stand from `at` on; `position` is the for's.
#[cycle(statements_and_expressions)]
fn compile_for_statement(
    tree: &[u64],
    at: usize,
    end: usize,
    starts: &[usize; 15],
    memory: &mut [u64],
    state: &mut FunctionState,
    start: usize,
    count: usize,
    position: u64,
)
    ensures { CompilesForStatement tree.now at end position start count (laid state.old starts.now memory.old)
        (laid state.new starts.now memory.new) }
{
    if end <= at {
        return;
    }
    let text = field(tree, at, record::VALUE);
    let text_position = field(tree, at, record::POSITION);
    let body = skip(tree, at + 1, end);
    let around = *state;
    start_loop(state);
    compile_expression(tree, at + 1, body, starts, memory, state, start, count);
    begin_loop(starts, memory, state, position, around.local_count);
    let entry = name_loop(
        starts,
        memory,
        state,
        position,
        text,
        text_position,
        around.local_count,
    );
    let first = entry.first;
    let exit = entry.exit;
    for statement in (Subtrees {
        tree,
        at: body,
        end,
    }) {
        compile_statement(
            tree,
            statement.at,
            statement.end,
            starts,
            memory,
            state,
            start,
            count,
        );
    }
    end_loop(starts, memory, state, around, first, exit);
}
