// `emit`, `emit_return` and `define_local` with the state lent to functions, and as methods, on the same cases. Each case writes its label and two lines, which
// must be the same: the state's fields, then area 1, then area 9. Three functions follow each other in one state; the second has the first's parameter.
ghost use Rattle.std.specs.Prelude.{◌≡◌, ◌≤◌};
ghost use Rattle.words.specs.Codes.{code_word};
ghost use Rattle.emitters.specs.Function.{function, function_c};

use crate::lines;
use building::function_state::FunctionState;
use std::io;
use words::opcode::{Instruction, OpCode};

const MOST_CODE: usize = 20;

const MOST_NAMES: usize = 5;

// `emitters::one_instruction` over the methods: the same promise.
fn one_instruction(
    code: &mut [u64],
    names: &mut [u64],
    state: FunctionState,
    parameter: u64,
    instruction: Instruction,
    position: u64,
) -> FunctionState
    ensures { function result code.new names.new
        ≡ function_c parameter (code_word instruction) position state code.old names.old }
{
    let mut s = state;
    s.define_local(names, parameter);
    s.emit(code, instruction, position);
    s.emit_return(code, position);
    s
}

fn show_counts(rt: &impl Print, state: FunctionState) -> io::Result<()> {
    lines::answer(rt, "full", state.full)?;
    lines::answer(rt, "code", state.code as u64)?;
    lines::answer(rt, "constants", state.constants as u64)?;
    lines::answer(rt, "names", state.names as u64)?;
    lines::answer(rt, "breaks", state.breaks as u64)?;
    lines::answer(rt, "errors", state.errors as u64)
}

fn show_state(rt: &impl Print, state: FunctionState) -> io::Result<()> {
    show_counts(rt, state)?;
    lines::answer(rt, "base", state.base as u64)?;
    lines::answer(rt, "scope base", state.scope_base as u64)?;
    lines::answer(rt, "break base", state.break_base as u64)?;
    lines::answer(rt, "in a loop", u64::from(state.in_loop))?;
    lines::answer(rt, "depth", state.depth as u64)?;
    lines::answer(rt, "rescue", state.rescue_position as u64)?;
    lines::answer(rt, "instance", u64::from(state.is_instance))?;
    lines::answer(rt, "parameters", state.parameter_count as u64)?;
    lines::answer(rt, "locals", state.local_count)
}

fn show_line(
    rt: &impl Print,
    form: &str,
    state: FunctionState,
    code: &[u64],
    names: &[u64],
) -> io::Result<()> {
    print!(rt; "{form}")?;
    show_state(rt, state)?;
    print!(rt; ", area 1")?;
    lines::words(rt, code)?;
    print!(rt; ", area 9")?;
    lines::words(rt, names)?;
    println!(rt; "")
}

// Three functions in one state, each made by `one`, over areas of so many words.
fn form<F: Fn(&mut [u64], &mut [u64], FunctionState, u64, Instruction, u64) -> FunctionState>(
    rt: &impl Print,
    name: &str,
    code_words: usize,
    name_words: usize,
    begun: FunctionState,
    opcode: OpCode,
    one: F,
) -> io::Result<()>
    requires callable { F.IsAlwaysCallable one }
    requires code { code_words ≤ 20 }
    requires names { name_words ≤ 5 }
{
    let mut code = [0; MOST_CODE];
    let mut names = [0; MOST_NAMES];
    let code = &mut code[..code_words];
    let names = &mut names[..name_words];
    let instruction = opcode.to_instruction(5);
    let first = one(code, names, begun, 7, instruction, 10);
    let second = one(code, names, first, 7, instruction, 11);
    let third = one(code, names, second, 8, instruction, 12);
    show_line(rt, name, third, code, names)
}

// Both forms, over areas of the same lengths.
fn case(
    rt: &impl Print,
    label: &str,
    code_words: usize,
    name_words: usize,
    full: u64,
    base: usize,
    opcode: OpCode,
) -> io::Result<()>
    requires code { code_words ≤ 20 }
    requires names { name_words ≤ 5 }
{
    println!(rt; "{label}:")?;
    let begun = FunctionState::new(full, base, 3, 0);
    form(
        rt,
        "lent    ",
        code_words,
        name_words,
        begun,
        opcode,
        emitters::one_instruction,
    )?;
    form(
        rt,
        "by value",
        code_words,
        name_words,
        begun,
        opcode,
        one_instruction,
    )
}

// Calls and no list of rows: `case` requires lengths of at most 20 and 5, which each call shows at once; rows would say the same numbers and need more.
fn cases_of(rt: &impl Print, name: &str, opcode: OpCode) -> io::Result<()> {
    println!(rt; "With {name}")?;
    case(rt, "areas of less than an entry", 1, 1, 0, 0, opcode)?;
    case(rt, "a name, and no code", 1, 2, 0, 0, opcode)?;
    case(rt, "the return is one entry too many", 4, 2, 0, 0, opcode)?;
    case(
        rt,
        "the third function's name is one entry too many",
        18,
        3,
        0,
        0,
        opcode,
    )?;
    case(
        rt,
        "the third function's return is a word too long",
        17,
        4,
        0,
        0,
        opcode,
    )?;
    case(rt, "room for all", 20, 5, 0, 0, opcode)?;
    case(
        rt,
        "room for all, behind another function's code",
        20,
        5,
        0,
        1,
        opcode,
    )?;
    case(rt, "marked as full", 20, 5, 3, 0, opcode)
}

// Emission's three ways to end a function: null is pushed, a Pop is taken back, a Return stays.
pub(crate) fn cases(rt: &impl Print) -> io::Result<()> {
    cases_of(rt, "LocalGet", OpCode::LocalGet)?;
    cases_of(rt, "Pop", OpCode::Pop)?;
    cases_of(rt, "Return", OpCode::Return)
}
