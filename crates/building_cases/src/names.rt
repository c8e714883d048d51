// Live names and scopes: names and locals about 2^32, and counts beyond the area.
use crate::lines;
use crate::lines::Room;
use building::function_state::FunctionState;
use std::io;

const MOST_NAMES: usize = 6;

// A name among live ones: its local, then what `define_local` gives it, and the area after it.
fn name_case(
    rt: &impl Print,
    label: &str,
    names: &mut [u64],
    count: usize,
    locals: u64,
    name: u64,
) -> io::Result<()> {
    lines::begin(rt, label)?;
    let mut state = FunctionState::new(0, 0, 0, 0);
    state.names = count;
    state.local_count = locals;
    lines::found(rt, "find", state.find_local(names, name))?;
    lines::found(rt, "define", state.define_local(names, name))?;
    lines::area(rt, state.full, state.names, names)
}

// A name, and the number that it got.
fn named(
    rt: &impl Print,
    names: &mut [u64],
    state: &mut FunctionState,
    name: u64,
) -> io::Result<()> {
    lines::found(rt, "define", state.define_local(names, name))
}

// A name, and the same in a scope in its scope, and again there; a local without a name, and another name.
fn inner_names(rt: &impl Print, names: &mut [u64], state: &mut FunctionState) -> io::Result<()> {
    named(rt, names, state, 40)?;
    state.enter_scope();
    named(rt, names, state, 40)?;
    named(rt, names, state, 40)?;
    state.define_anonymous_local();
    named(rt, names, state, 41)
}

// Both names as a search finds them.
fn show_names(rt: &impl Print, names: &[u64], state: &FunctionState) -> io::Result<()> {
    lines::found(rt, "find 40", state.find_local(names, 40))?;
    lines::found(rt, "find 41", state.find_local(names, 41))?;
    lines::answer(rt, "scope base", state.scope_base as u64)?;
    lines::answer(rt, "locals", state.local_count)?;
    lines::area(rt, state.full, state.names, names)
}

// The scope ends, then the function.
fn scope_case(rt: &impl Print, room: Room<'_>) -> io::Result<()> {
    let label = room.name;
    let mut names = [0; MOST_NAMES];
    let names = &mut names[..room.words.min(MOST_NAMES)];
    let mut state = FunctionState::new(room.full, 0, 0, 0);
    lines::begin_part(rt, label, "inner scope")?;
    inner_names(rt, names, &mut state)?;
    show_names(rt, names, &state)?;
    lines::begin_part(rt, label, "outer scope")?;
    state.exit_scope(names, 0);
    show_names(rt, names, &state)?;
    lines::begin_part(rt, label, "after the function")?;
    state.end_function(names);
    show_names(rt, names, &state)
}

const SCOPES: [Room<'static>; 4] = [
    Room {
        name: "scopes, no room",
        words: 1,
        full: 0,
    },
    Room {
        name: "scopes, one entry short",
        words: 5,
        full: 0,
    },
    Room {
        name: "scopes, room for all",
        words: MOST_NAMES,
        full: 0,
    },
    Room {
        name: "scopes, marked as full",
        words: MOST_NAMES,
        full: 3,
    },
];

fn scope_cases(rt: &impl Print) -> io::Result<()> {
    for room in SCOPES {
        scope_case(rt, room)?;
    }
    Ok(())
}

fn name_cases(rt: &impl Print) -> io::Result<()> {
    let mut wide_local = [7u64, 4294967301, 0, 0];
    name_case(rt, "names, a local past 2^32", &mut wide_local, 1, 1, 7)?;
    let mut first_wide_local = [7u64, 4294967296, 0, 0];
    name_case(rt, "names, local 2^32", &mut first_wide_local, 1, 1, 7)?;
    let mut last_narrow_local = [7u64, 4294967295, 0, 0];
    name_case(
        rt,
        "names, local 2^32 - 1",
        &mut last_narrow_local,
        1,
        4294967296,
        7,
    )?;
    let mut wide_name = [4294967303u64, 0, 0, 0];
    name_case(rt, "names, 2^32 + 7 is not 7", &mut wide_name, 1, 1, 7)?;
    let mut wide_name_asked = [4294967303u64, 3, 0, 0];
    name_case(
        rt,
        "names, 2^32 + 7 asked for",
        &mut wide_name_asked,
        1,
        4,
        4294967303,
    )?;
    let mut last_narrow_name = [4294967295u64, 2, 0, 0];
    name_case(
        rt,
        "names, 2^32 - 1 asked for",
        &mut last_narrow_name,
        1,
        3,
        4294967295,
    )?;
    let mut first_wide_name = [4294967295u64, 2, 0, 0];
    name_case(
        rt,
        "names, 2^32 asked for",
        &mut first_wide_name,
        1,
        3,
        4294967296,
    )?;
    let mut many_locals = [7u64, 4, 7, 4294967297];
    name_case(
        rt,
        "names, more than 2^32 locals",
        &mut many_locals,
        2,
        4294967298,
        7,
    )?;
    let mut many_locals_new = [7u64, 4, 0, 0];
    name_case(
        rt,
        "names, a new one of more than 2^32",
        &mut many_locals_new,
        1,
        4294967301,
        8,
    )?;
    let mut newest = [7u64, 1, 7, 2];
    name_case(rt, "names, the newest of two", &mut newest, 2, 3, 7)?;
    let mut beyond = [7u64, 4, 0];
    name_case(rt, "names, a count beyond the area", &mut beyond, 3, 5, 7)?;
    let mut beyond_zero = [7u64, 4];
    name_case(
        rt,
        "names, name 0 beyond the area",
        &mut beyond_zero,
        3,
        5,
        0,
    )
}

pub(crate) fn cases(rt: &impl Print) -> io::Result<()> {
    name_cases(rt)?;
    scope_cases(rt)
}
