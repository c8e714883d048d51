// The pool, the errors, context locals and functions' records.
use crate::lines;
use building::context;
use building::function_state::FunctionState;
use std::io;

// An integer, a float of the same bits, the same integer, the same float; then two marks.
fn pool_case(rt: &impl Print, label: &str, constants: &mut [u64], full: u64) -> io::Result<()> {
    lines::begin(rt, label)?;
    let mut state = FunctionState::new(full, 0, 0, 0);
    lines::answer(rt, "integer", state.add_constant(constants, 2, 7))?;
    lines::answer(rt, "float", state.add_constant(constants, 3, 7))?;
    lines::answer(rt, "integer again", state.add_constant(constants, 2, 7))?;
    lines::answer(rt, "float again", state.add_constant(constants, 3, 7))?;
    state.mark_global(constants, 1);
    state.mark_global(constants, 3);
    lines::area(rt, state.full, state.constants, constants)
}

// Two errors.
fn error_case(rt: &impl Print, label: &str, errors: &mut [u64], full: u64) -> io::Result<()> {
    lines::begin(rt, label)?;
    let mut state = FunctionState::new(full, 0, 0, 0);
    state.push_error(errors, 3, 11, 39, 19);
    state.push_error(errors, 5, 12, 40, 20);
    lines::area(rt, state.full, state.errors, errors)
}

// Two names of the second book, the first again, a search of a name of the first book; then two values.
fn local_case(rt: &impl Print, label: &str, locals: &mut [u64], mark: u64) -> io::Result<()> {
    lines::begin(rt, label)?;
    let mut full = mark;
    let mut count = 0;
    let a = context::define_context_local(locals, &mut full, 0, &mut count, 1, 30);
    lines::found(rt, "first", a)?;
    let start = count;
    let b = context::define_context_local(locals, &mut full, start, &mut count, 2, 31);
    lines::found(rt, "second", b)?;
    let c = context::define_context_local(locals, &mut full, start, &mut count, 2, 31);
    lines::found(rt, "second again", c)?;
    let other = context::find_context_local(locals, start, count, 30);
    lines::found(rt, "the first book's", other)?;
    let own = context::find_context_local(locals, 0, count, 31);
    lines::found(rt, "the second's", own)?;
    context::set_value(locals, full, count, 1, 9);
    context::set_value(locals, full, count, 2, 9);
    lines::area(rt, full, count, locals)
}

fn function_case(rt: &impl Print, label: &str, functions: &mut [u64], mark: u64) -> io::Result<()> {
    lines::begin(rt, label)?;
    let state = FunctionState::new(mark, 5, 0, 0);
    let mut full = mark;
    let mut count = 0;
    context::add_function(functions, &mut full, &mut count, &state, 1, 30);
    context::add_function(functions, &mut full, &mut count, &state, 1, 31);
    lines::area(rt, full, count, functions)
}

pub(crate) fn cases(rt: &impl Print) -> io::Result<()> {
    let mut none = [0u64; 2];
    pool_case(rt, "pool, no room", &mut none, 0)?;
    let mut one = [0u64; 3];
    pool_case(rt, "pool, room for one", &mut one, 0)?;
    let mut short = [0u64; 8];
    pool_case(rt, "pool, just room for both", &mut short, 0)?;
    let mut all = [0u64; 12];
    pool_case(rt, "pool, room to spare", &mut all, 0)?;
    let mut marked = [0u64; 12];
    pool_case(rt, "pool, marked as full", &mut marked, 9)?;
    let mut no_error = [0u64; 3];
    error_case(rt, "errors, no room", &mut no_error, 0)?;
    let mut one_error = [0u64; 7];
    error_case(rt, "errors, room for one", &mut one_error, 0)?;
    let mut errors = [0u64; 8];
    error_case(rt, "errors, room for both", &mut errors, 0)?;
    let mut one_local = [0u64; 4];
    local_case(rt, "context locals, room for one", &mut one_local, 0)?;
    let mut locals = [0u64; 12];
    local_case(rt, "context locals, room for all", &mut locals, 0)?;
    let mut marked_locals = [0u64; 4];
    local_case(rt, "context locals, marked as full", &mut marked_locals, 1)?;
    let mut one_function = [0u64; 15];
    function_case(rt, "functions, room for one", &mut one_function, 0)?;
    let mut functions = [0u64; 16];
    function_case(rt, "functions, room for both", &mut functions, 0)
}
