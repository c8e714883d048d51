// Instructions, breaks and the state of a function.
use crate::lines;
use crate::lines::Room;
use building::function_state::FunctionState;
use std::io;
use words::opcode::OpCode;

// The most words of code behind nothing.
const MOST_CODE: usize = 6;

// The words of code for three instructions behind two of another function.
const MOST_BEHIND: usize = 8;

fn show_code(rt: &impl Print, code: &[u64], state: &FunctionState) -> io::Result<()> {
    lines::answer(rt, "position", state.get_last_position(code))?;
    lines::answer(rt, "next", state.get_next_instruction_index() as u64)?;
    lines::area(rt, state.full, state.code, code)
}

// Label, area and mark come one by one, here and in the cases below: a struct of them would be made for one call and taken apart in it, and is no plainer.
// Four instructions behind what stands: one with an operand, one of an opcode alone, and two at the last position, null the second.
fn emit_case(
    rt: &impl Print,
    label: &str,
    code: &mut [u64],
    full: u64,
    base: usize,
) -> io::Result<()> {
    lines::begin(rt, label)?;
    let mut state = FunctionState::new(full, base, 0, 0);
    lines::answer(rt, "position before", state.get_last_position(code))?;
    state.emit(code, OpCode::LocalGet.to_instruction(3), 10);
    state.emit_opcode(code, OpCode::Negative, 11);
    state.emit_opcode_without_position(code, OpCode::Not);
    state.emit_null(code);
    show_code(rt, code, &state)
}

// An opcode, then a change of the code behind it.
fn opcode_case<F: Fn(&mut FunctionState, &mut [u64])>(
    rt: &impl Print,
    name: &str,
    room: Room<'_>,
    opcode: OpCode,
    change: F,
) -> io::Result<()>
    requires callable { F.IsAlwaysCallable change }
{
    lines::begin_part(rt, name, room.name)?;
    let mut code = [0; MOST_CODE];
    let code = &mut code[..room.words.min(MOST_CODE)];
    let mut state = FunctionState::new(room.full, 0, 0, 0);
    state.emit_opcode(code, opcode, 20);
    change(&mut state, code);
    show_code(rt, code, &state)
}

// Two instructions behind another function's one, then a change of them.
fn change_case<F: Fn(&mut FunctionState, &mut [u64])>(
    rt: &impl Print,
    name: &str,
    room: Room<'_>,
    change: F,
) -> io::Result<()>
    requires callable { F.IsAlwaysCallable change }
{
    lines::begin_part(rt, name, room.name)?;
    let mut code = [9; MOST_BEHIND];
    let code = &mut code[..room.words.min(MOST_BEHIND)];
    let mut state = FunctionState::new(room.full, 1, 0, 0);
    state.emit_opcode(code, OpCode::Jump, 10);
    state.emit_opcode(code, OpCode::Jump, 11);
    change(&mut state, code);
    show_code(rt, code, &state)
}

// The first is replaced; the third would be, if it were there.
fn replace_two(state: &mut FunctionState, code: &mut [u64]) {
    let jump = OpCode::JumpIf.to_instruction(2);
    state.replace_instruction(code, 0, jump);
    state.replace_instruction(code, 2, jump);
}

fn show_breaks(
    rt: &impl Print,
    label: &str,
    part: &str,
    code: &[u64],
    breaks: &[u64],
    state: &FunctionState,
) -> io::Result<()> {
    lines::begin_part(rt, label, part)?;
    lines::truth(rt, "in a loop", state.in_loop)?;
    lines::answer(rt, "break base", state.break_base as u64)?;
    lines::area(rt, state.full, state.code, code)?;
    lines::begin_part(rt, label, "its breaks")?;
    lines::area(rt, state.full, state.breaks, breaks)
}

// A break outside of a loop, one in a loop, and one in a loop in that. The inner loop ends, and another break of the outer one follows; then the outer
// loop ends.
fn break_case(
    rt: &impl Print,
    label: &str,
    code: &mut [u64],
    breaks: &mut [u64],
    full: u64,
) -> io::Result<()> {
    let mut state = FunctionState::new(full, 0, 0, 0);
    state.emit_break(code, breaks, 29);
    state.enter_break_scope();
    state.emit_break(code, breaks, 30);
    state.enter_break_scope();
    state.emit_break(code, breaks, 31);
    show_breaks(rt, label, "inner loop", code, breaks, &state)?;
    state.exit_break_scope(code, breaks, 0, true);
    state.emit_break(code, breaks, 32);
    show_breaks(rt, label, "outer loop", code, breaks, &state)?;
    state.exit_break_scope(code, breaks, 0, false);
    show_breaks(rt, label, "after the loops", code, breaks, &state)
}

// Depths up to the most, the rescue part at the next instruction, and parameters.
fn show_state(rt: &impl Print, state: FunctionState) -> io::Result<()> {
    let mut s = state;
    s.deeper();
    lines::answer(rt, "depth", s.depth as u64)?;
    s.set_depth(18446744073709551614);
    s.deeper();
    lines::answer(rt, "deepest", s.depth as u64)?;
    s.deeper();
    lines::answer(rt, "deeper", s.depth as u64)?;
    s.set_rescue();
    lines::answer(rt, "rescue", s.rescue_position as u64)?;
    s.set_parameters(true, 2);
    lines::truth(rt, "instance", s.is_instance)?;
    lines::answer(rt, "parameters", s.parameter_count as u64)
}

// Behind one instruction.
fn state_case(rt: &impl Print, label: &str, code: &mut [u64], full: u64) -> io::Result<()> {
    lines::begin(rt, label)?;
    let mut state = FunctionState::new(full, 0, 0, 0);
    state.emit_opcode(code, OpCode::Not, 10);
    show_state(rt, state)?;
    show_code(rt, code, &state)
}

fn emit_cases(rt: &impl Print) -> io::Result<()> {
    let mut none = [0u64; 1];
    emit_case(rt, "emit, no room", &mut none, 0, 0)?;
    let mut short = [0u64; 7];
    emit_case(rt, "emit, one entry short", &mut short, 0, 0)?;
    let mut all = [0u64; 8];
    emit_case(rt, "emit, room for all", &mut all, 0, 0)?;
    let mut marked = [0u64; 8];
    emit_case(rt, "emit, marked as full", &mut marked, 9, 0)?;
    let mut behind = [9u64; 10];
    emit_case(rt, "emit, behind other code", &mut behind, 0, 1)
}

const REMOVED: [(Room<'static>, OpCode); 6] = [
    (
        Room {
            name: "no room",
            words: 1,
            full: 0,
        },
        OpCode::Pop,
    ),
    (
        Room {
            name: "after Pop",
            words: 2,
            full: 0,
        },
        OpCode::Pop,
    ),
    (
        Room {
            name: "after Return",
            words: 4,
            full: 0,
        },
        OpCode::Return,
    ),
    (
        Room {
            name: "one entry short",
            words: 3,
            full: 0,
        },
        OpCode::Not,
    ),
    (
        Room {
            name: "room for all",
            words: 4,
            full: 0,
        },
        OpCode::Not,
    ),
    (
        Room {
            name: "marked as full",
            words: 4,
            full: 9,
        },
        OpCode::Not,
    ),
];

// The Pop is removed, or null pushed.
fn remove_cases(rt: &impl Print) -> io::Result<()> {
    for (room, opcode) in REMOVED {
        opcode_case(rt, "remove_pop_or_push_null", room, opcode, |state, code| {
            state.remove_pop_or_push_null(code);
        })?;
    }
    Ok(())
}

const RETURNED: [(Room<'static>, OpCode); 6] = [
    (
        Room {
            name: "no room",
            words: 1,
            full: 0,
        },
        OpCode::Not,
    ),
    (
        Room {
            name: "after Pop",
            words: 4,
            full: 0,
        },
        OpCode::Pop,
    ),
    (
        Room {
            name: "after Return",
            words: 4,
            full: 0,
        },
        OpCode::Return,
    ),
    (
        Room {
            name: "one entry short",
            words: 5,
            full: 0,
        },
        OpCode::Not,
    ),
    (
        Room {
            name: "room for all",
            words: 6,
            full: 0,
        },
        OpCode::Not,
    ),
    (
        Room {
            name: "marked as full",
            words: 6,
            full: 9,
        },
        OpCode::Not,
    ),
];

// A Return, then another, which is not added.
fn return_cases(rt: &impl Print) -> io::Result<()> {
    for (room, opcode) in RETURNED {
        opcode_case(rt, "emit_return", room, opcode, |state, code| {
            state.emit_return(code, 21);
            state.emit_return(code, 22);
        })?;
    }
    Ok(())
}

const BEHIND: [Room<'static>; 4] = [
    Room {
        name: "no room",
        words: 3,
        full: 0,
    },
    Room {
        name: "one entry short",
        words: 5,
        full: 0,
    },
    Room {
        name: "room for all",
        words: MOST_BEHIND,
        full: 0,
    },
    Room {
        name: "marked as full",
        words: MOST_BEHIND,
        full: 9,
    },
];

// Of a change of two instructions: in each room.
fn change_cases<F: Fn(&mut FunctionState, &mut [u64])>(
    rt: &impl Print,
    name: &str,
    change: F,
) -> io::Result<()>
    requires callable { F.IsAlwaysCallable change }
{
    for room in BEHIND {
        change_case(rt, name, room, &change)?;
    }
    Ok(())
}

// No room for code; a break too many; an instruction too many; room for all; the mark.
fn break_cases(rt: &impl Print) -> io::Result<()> {
    let mut no_code = [0u64; 1];
    let mut unused = [0u64; 2];
    break_case(rt, "breaks, no room for code", &mut no_code, &mut unused, 0)?;
    let mut code = [0u64; 6];
    let mut short = [0u64; 1];
    break_case(rt, "breaks, one break short", &mut code, &mut short, 0)?;
    let mut short_code = [0u64; 5];
    let mut breaks = [0u64; 2];
    break_case(
        rt,
        "breaks, one word of code short",
        &mut short_code,
        &mut breaks,
        0,
    )?;
    let mut all = [0u64; 6];
    let mut both = [0u64; 2];
    break_case(rt, "breaks, room for all", &mut all, &mut both, 0)?;
    let mut marked = [0u64; 6];
    let mut marked_breaks = [0u64; 2];
    break_case(
        rt,
        "breaks, marked as full",
        &mut marked,
        &mut marked_breaks,
        9,
    )
}

fn state_cases(rt: &impl Print) -> io::Result<()> {
    let mut none = [0u64; 1];
    state_case(rt, "state, no room", &mut none, 0)?;
    let mut all = [0u64; 2];
    state_case(rt, "state, room for all", &mut all, 0)?;
    let mut marked = [0u64; 2];
    state_case(rt, "state, marked as full", &mut marked, 9)
}

pub(crate) fn cases(rt: &impl Print) -> io::Result<()> {
    emit_cases(rt)?;
    remove_cases(rt)?;
    return_cases(rt)?;
    change_cases(rt, "replace_instruction", replace_two)?;
    // The function's code is given back, the other's stays.
    change_cases(rt, "drop_function", |state, code| state.drop_function(code))?;
    break_cases(rt)?;
    state_cases(rt)
}
