// The compilers of expressions. `start` and `count` are those of the book's context locals.
ghost use Rattle.std.specs.Prelude.{◌≡◌};
ghost use Rattle.words.specs.Codes.{number_of};
ghost use Rattle.words.specs.Object.{constant_of};
ghost use Rattle.words.specs.Opcode.{PushConstant};
ghost use Rattle.definition.specs.Compiler.{emit_constant, emit_global, emit_name};
ghost use Rattle.book_compiler.specs.Represents.{laid, Simulates, SimulatesInside};
ghost use Rattle.book_compiler.specs.Members.{CompilesLeaf, CompilesExpression, CompilesInfixExpression, CompilesIfExpression, CompilesAssignLeftPart};
ghost use Rattle.compiler_laws.specs.InsideFunction.{standing_of};

use crate::function_state;
use crate::operations::{finish_expression, operation};
use crate::statements::compile_block;
use crate::subtree::{Subtrees, skip};
use building::function_state::FunctionState;
use words::opcode::OpCode;
use words::record::{RecordKind, field};
use words::reply::CompileError;
use words::{object, record};

// An instruction over a new or an old constant.
pub(crate) fn constant(
    starts: &[usize; 15],
    memory: &mut [u64],
    state: &mut FunctionState,
    kind: u64,
    value: u64,
    position: u64,
)
    ensures { Simulates (laid state.old starts.now memory.old)
        (laid state.new starts.now memory.new)
        (emit_constant PushConstant (constant_of kind value) position) }
{
    let index = function_state::add_constant(starts, memory, state, kind, value);
    let instruction = OpCode::PushConstant.to_instruction(index);
    function_state::emit(starts, memory, state, instruction, position);
}

// A global's name is a text constant with a mark.
fn global(
    starts: &[usize; 15],
    memory: &mut [u64],
    state: &mut FunctionState,
    opcode: OpCode,
    name: u64,
    position: u64,
)
    ensures { Simulates (laid state.old starts.now memory.old)
        (laid state.new starts.now memory.new)
        (emit_global (number_of opcode) name position) }
{
    let index = function_state::add_constant(starts, memory, state, object::TEXT, name);
    function_state::mark_global(starts, memory, state, index);
    let instruction = opcode.to_instruction(index);
    function_state::emit(starts, memory, state, instruction, position);
}

// A name, read or set: by the opcode for a local, a context local or a global.
fn name(
    starts: &[usize; 15],
    memory: &mut [u64],
    state: &mut FunctionState,
    start: usize,
    count: usize,
    local: OpCode,
    outer: OpCode,
    other: OpCode,
    text: u64,
    position: u64,
)
    ensures { SimulatesInside start count (laid state.old starts.now memory.old)
        (laid state.new starts.now memory.new)
        (emit_name (number_of local) (number_of outer) (number_of other) text position) }
{
    if state.full != 0 {
        return;
    }
    if let Some(i) = function_state::find_local(starts, memory, state, text) {
        let instruction = local.to_instruction(i);
        function_state::emit(starts, memory, state, instruction, position);
        return;
    }
    if let Some(j) = function_state::find_context_local(starts, memory, state, start, count, text) {
        let instruction = outer.to_instruction(j);
        function_state::emit(starts, memory, state, instruction, position);
        return;
    }
    global(starts, memory, state, other, text, position);
}

// Kinds 30 to 36, by the words of their record.
fn leaf(
    starts: &[usize; 15],
    memory: &mut [u64],
    state: &mut FunctionState,
    start: usize,
    count: usize,
    kind: u64,
    position: u64,
    value: u64,
)
    ensures { CompilesLeaf kind position value start count (laid state.old starts.now memory.old)
        (laid state.new starts.now memory.new) }
{
    match RecordKind::try_from(kind).unwrap_or(RecordKind::Null) {
        RecordKind::Identifier => name(
            starts,
            memory,
            state,
            start,
            count,
            OpCode::LocalGet,
            OpCode::ContextGet,
            OpCode::GlobalGet,
            value,
            position,
        ),
        RecordKind::This => {
            let read = OpCode::LocalGet.to_instruction(0);
            function_state::emit(starts, memory, state, read, position);
        }
        RecordKind::Integer => constant(starts, memory, state, object::INTEGER, value, position),
        RecordKind::Float => constant(starts, memory, state, object::FLOAT, value, position),
        RecordKind::String => constant(starts, memory, state, object::TEXT, value, position),
        _ => {
            let instruction = OpCode::PushConstant.to_instruction(standing(kind, value));
            function_state::emit(starts, memory, state, instruction, position);
        }
    }
}

// `compile_expression`
#[cycle(statements_and_expressions)]
pub(crate) fn compile_expression(
    tree: &[u64],
    at: usize,
    end: usize,
    starts: &[usize; 15],
    memory: &mut [u64],
    state: &mut FunctionState,
    start: usize,
    count: usize,
)
    ensures { CompilesExpression tree.now at end start count (laid state.old starts.now memory.old)
        (laid state.new starts.now memory.new) }
{
    if state.full != 0 {
        return;
    }
    if end <= at {
        return;
    }
    let kind = field(tree, at, record::KIND);
    let position = field(tree, at, record::POSITION);
    let value = field(tree, at, record::VALUE);
    if kind < record::ARRAY {
        leaf(starts, memory, state, start, count, kind, position, value);
        return;
    }
    match RecordKind::try_from(kind).unwrap_or(RecordKind::Absent) {
        RecordKind::Infix => compile_infix_expression(
            tree,
            at + 1,
            end,
            starts,
            memory,
            state,
            start,
            count,
            position,
            value,
        ),
        RecordKind::If => compile_if_expression(
            tree,
            at + 1,
            end,
            starts,
            memory,
            state,
            start,
            count,
        ),
        _ => {
            let mut n: u64 = 0;
            for part in (Subtrees {
                tree,
                at: at + 1,
                end,
            }) {
                compile_expression(tree, part.at, part.end, starts, memory, state, start, count);
                n += 1;
            }
            finish_expression(starts, memory, state, kind, position, value, n);
        }
    }
}

// `compile_infix_expression`: its sides stand from `at` on; `position` and `value` are the infix's.
#[cycle(statements_and_expressions)]
fn compile_infix_expression(
    tree: &[u64],
    at: usize,
    end: usize,
    starts: &[usize; 15],
    memory: &mut [u64],
    state: &mut FunctionState,
    start: usize,
    count: usize,
    position: u64,
    value: u64,
)
    ensures { CompilesInfixExpression tree.now at end position value start count
        (laid state.old starts.now memory.old)
        (laid state.new starts.now memory.new) }
{
    if end <= at {
        return;
    }
    let middle = skip(tree, at, end);
    if end <= middle {
        return;
    }
    if value == record::INFIX_ASSIGN {
        compile_expression(tree, middle, end, starts, memory, state, start, count);
        compile_assign_expression_left_part(
            tree, at, middle, starts, memory, state, start, count, position, value,
        );
        return;
    }
    if record::INFIX_OR < value {
        function_state::push_error(
            starts,
            memory,
            state,
            CompileError::UnknownOperation,
            position,
            record::INFIX,
            value,
        );
        return;
    }
    compile_expression(tree, at, middle, starts, memory, state, start, count);
    compile_expression(tree, middle, end, starts, memory, state, start, count);
    operation(starts, memory, state, value, position);
    if record::INFIX_PERCENT < value && value < record::INFIX_EQUAL {
        compile_assign_expression_left_part(
            tree, at, middle, starts, memory, state, start, count, position, value,
        );
    }
}

// `compile_assign_expression_left_part`: `position` and `value` are the assignment's.
#[cycle(statements_and_expressions)]
fn compile_assign_expression_left_part(
    tree: &[u64],
    at: usize,
    end: usize,
    starts: &[usize; 15],
    memory: &mut [u64],
    state: &mut FunctionState,
    start: usize,
    count: usize,
    position: u64,
    value: u64,
)
    ensures { CompilesAssignLeftPart tree.now at end position value start count
        (laid state.old starts.now memory.old)
        (laid state.new starts.now memory.new) }
{
    if state.full != 0 {
        return;
    }
    if end <= at {
        return;
    }
    let kind = field(tree, at, record::KIND);
    let place = field(tree, at, record::POSITION);
    let text = field(tree, at, record::VALUE);
    match kind {
        record::IDENTIFIER => name(
            starts,
            memory,
            state,
            start,
            count,
            OpCode::LocalSet,
            OpCode::ContextSet,
            OpCode::GlobalSet,
            text,
            position,
        ),
        record::INSTANCE_GET | record::INDEX_GET => {
            for part in (Subtrees {
                tree,
                at: at + 1,
                end,
            }) {
                compile_expression(tree, part.at, part.end, starts, memory, state, start, count);
            }
            if kind == record::INSTANCE_GET {
                function_state::emit_opcode(starts, memory, state, OpCode::InstanceSet, place);
            } else {
                function_state::emit_opcode(starts, memory, state, OpCode::IndexSet, place);
            }
        }
        _ => function_state::push_error(
            starts,
            memory,
            state,
            CompileError::CanNotAssign,
            position,
            record::INFIX,
            value,
        ),
    }
}

// `compile_if_expression`: the condition and the parts stand from `at` on. The false part comes before the true part.
#[cycle(statements_and_expressions)]
fn compile_if_expression(
    tree: &[u64],
    at: usize,
    end: usize,
    starts: &[usize; 15],
    memory: &mut [u64],
    state: &mut FunctionState,
    start: usize,
    count: usize,
)
    ensures { CompilesIfExpression tree.now at end start count (laid state.old starts.now memory.old)
        (laid state.new starts.now memory.new) }
{
    if end <= at {
        return;
    }
    let yes = skip(tree, at, end);
    if end <= yes {
        return;
    }
    let no = skip(tree, yes, end);
    compile_expression(tree, at, yes, starts, memory, state, start, count);
    let true_part = state.get_next_instruction_index();
    function_state::emit_opcode_without_position(starts, memory, state, OpCode::JumpIf);
    compile_block(tree, no, end, starts, memory, state, start, count);
    let jump_to_end = state.get_next_instruction_index();
    function_state::emit_opcode_without_position(starts, memory, state, OpCode::Jump);
    let next = state.get_next_instruction_index();
    let taken = OpCode::JumpIf.to_instruction(next as u64);
    function_state::replace_instruction(starts, memory, state, true_part, taken);
    compile_block(tree, yes, no, starts, memory, state, start, count);
    let last = state.get_next_instruction_index();
    let over = OpCode::Jump.to_instruction(last as u64);
    function_state::replace_instruction(starts, memory, state, jump_to_end, over);
}

// The constant that null and the booleans are.
pub(crate) fn standing(kind: u64, value: u64) -> u64
    ensures { result ≡ standing_of kind value }
{
    match (kind, value) {
        (record::BOOLEAN, 1) => 1,
        (record::BOOLEAN, _) => 2,
        _ => 0,
    }
}
