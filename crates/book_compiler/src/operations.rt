// What an expression does when its parts are there: operations, lists, calls, and what is read of an instance or by an index.
ghost use Rattle.std.specs.Prelude.{◌≡◌, ◌-◌};
ghost use Rattle.words.specs.Codes.{number_of_operation};
ghost use Rattle.compiler_laws.specs.InsideFunction.{operation_of};
ghost use Rattle.book_compiler.specs.Represents.{laid};
ghost use Rattle.book_compiler.specs.Members.{Operates, Finishes};

use crate::function_state;
use building::function_state::FunctionState;
use words::opcode::{OpCode, Operation};
use words::record::{InfixOperator, PrefixOperator, RecordKind};
use words::reply::CompileError;
use words::{UnknownNumber, record};

// The operation of an infix value between 1 and 18.
#[tactic(auto, using(crate::proofs::ReadCases::no_infix))]
fn operation_of(value: u64) -> Operation
    ensures { number_of_operation result ≡ operation_of value }
{
    match InfixOperator::try_from(value) {
        Ok(InfixOperator::Assign | InfixOperator::Plus | InfixOperator::PlusAssign) =>
            Operation::Add,
        Ok(InfixOperator::Minus | InfixOperator::MinusAssign) => Operation::Sub,
        Ok(InfixOperator::Star | InfixOperator::StarAssign) => Operation::Multiply,
        Ok(InfixOperator::Slash | InfixOperator::SlashAssign) => Operation::Divide,
        Ok(InfixOperator::Percent | InfixOperator::PercentAssign) => Operation::Mod,
        Ok(InfixOperator::Equal | InfixOperator::NotEqual) => Operation::Equal,
        Ok(InfixOperator::Greater) => Operation::Greater,
        Ok(InfixOperator::Less) => Operation::Less,
        Ok(InfixOperator::GreaterEqual) => Operation::GreaterEqual,
        Ok(InfixOperator::LessEqual) => Operation::LessEqual,
        Ok(InfixOperator::And) => Operation::And,
        Ok(InfixOperator::Or | InfixOperator::Other) | Err(UnknownNumber(_)) => Operation::Or,
    }
}

// What an infix does when both sides are there.
pub(crate) fn operation(
    starts: &[usize; 15],
    memory: &mut [u64],
    state: &mut FunctionState,
    value: u64,
    position: u64,
)
    ensures { Operates value position (laid state.old starts.now memory.old)
        (laid state.new starts.now memory.new) }
{
    let number = operation_of(value).number();
    let instruction = OpCode::Operation.to_instruction(number);
    function_state::emit(starts, memory, state, instruction, position);
    if value == record::INFIX_NOT_EQUAL {
        function_state::emit_opcode(starts, memory, state, OpCode::Not, position);
    }
}

// What an expression with a list of n parts does when they are there. A call's function is the first of its list.
pub(crate) fn finish_expression(
    starts: &[usize; 15],
    memory: &mut [u64],
    state: &mut FunctionState,
    kind: u64,
    position: u64,
    value: u64,
    n: u64,
)
    ensures { Finishes kind position value n (laid state.old starts.now memory.old)
        (laid state.new starts.now memory.new) }
{
    let Ok(case) = RecordKind::try_from(kind) else {
        return;
    };
    match case {
        RecordKind::Array => {
            let instruction = OpCode::Array.to_instruction(n);
            function_state::emit(starts, memory, state, instruction, position);
        }
        // All but the function itself are parameters.
        RecordKind::Call => {
            let instruction = OpCode::Call.to_instruction(n.saturating_sub(1));
            function_state::emit(starts, memory, state, instruction, position);
        }
        RecordKind::InstanceGet => {
            function_state::emit_opcode(starts, memory, state, OpCode::InstanceGet, position);
        }
        RecordKind::IndexGet => {
            function_state::emit_opcode(starts, memory, state, OpCode::IndexGet, position);
        }
        RecordKind::Prefix => match PrefixOperator::try_from(value).unwrap_or(
            PrefixOperator::Other,
        ) {
            PrefixOperator::Minus => {
                function_state::emit_opcode(starts, memory, state, OpCode::Negative, position);
            }
            PrefixOperator::Not => {
                function_state::emit_opcode(starts, memory, state, OpCode::Not, position);
            }
            PrefixOperator::Other => {
                function_state::push_error(
                    starts,
                    memory,
                    state,
                    CompileError::UnknownOperation,
                    position,
                    kind,
                    value,
                );
            }
        },
        _ => (),
    }
}
