// `emit`, `emit_return` and `define_local` of `backend/function_state.rs` as functions that are lent the function's state. Each is thin over the method of
// `building` and promises what that promises; `one_instruction`, above them, takes and returns the state by value.
#![tactic(auto)]

ghost use Rattle.std.specs.Prelude.{◌≡◌};
ghost use Rattle.words.specs.Codes.{code_word};
ghost use Rattle.building.specs.Emission.{coded, emit_c, emit_return_c};
ghost use Rattle.building.specs.Scopes.{naming, Defines};
ghost use Rattle.emitters.specs.Function.{defined, function, function_c};

use building::function_state::FunctionState;
use words::opcode::Instruction;

// `emit`
pub fn emit(code: &mut [u64], state: &mut FunctionState, instruction: Instruction, position: u64)
    ensures { coded state.new code.new ≡ emit_c (code_word instruction) position (coded state.old code.old) }
{
    state.emit(code, instruction, position);
}

// `emit_return`
pub fn emit_return(code: &mut [u64], state: &mut FunctionState, position: u64)
    ensures { coded state.new code.new ≡ emit_return_c position (coded state.old code.old) }
{
    state.emit_return(code, position);
}

// `define_local`: the local's number, or nothing where the innermost scope has the name.
pub fn define_local(names: &mut [u64], state: &mut FunctionState, name: u64) -> Option<u64>
    ensures { Defines name (naming state.old names.old) (defined result state.new) names.new }
{
    state.define_local(names, name)
}

// A function of one parameter and one instruction: the parameter's name, the instruction and the return, with one state lent to each.
pub fn one_instruction(
    code: &mut [u64],
    names: &mut [u64],
    state: FunctionState,
    parameter: u64,
    instruction: Instruction,
    position: u64,
) -> FunctionState
    ensures { function result code.new names.new
        ≡ function_c parameter (code_word instruction) position state code.old names.old }
{
    let mut s = state;
    define_local(names, &mut s, parameter);
    emit(code, &mut s, instruction, position);
    emit_return(code, &mut s, position);
    s
}
