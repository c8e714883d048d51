// `backend/compiler.rs`: functions over one memory, their parameters and base, and the functions and methods of an implement definition.
ghost use Rattle.std.specs.Prelude.{◌≡◌};
ghost use Rattle.tree.specs.At.{is_parameter};
ghost use Rattle.building.specs.Emission.{drop_c};
ghost use Rattle.building.specs.Scopes.{end_function_c};
ghost use Rattle.compiler_laws.specs.MakingFunctions.{instance_by, ParametersEnd};
ghost use Rattle.compiler_laws.specs.AddingFunctions.{AddsFunction};
ghost use Rattle.book_compiler.specs.Represents.{laid};
ghost use Rattle.book_compiler.specs.Leaves.{OnCode, OnNames};
ghost use Rattle.book_compiler.specs.Members.{CompilesStatements};
ghost use Rattle.book_compiler.specs.RepresentsBook.{book_laid};
ghost use Rattle.book_compiler.specs.FunctionSteps.{CompilesParameter, CompilesParameters, CompilesBase, MakesFunction, AddsBookFunction};
ghost use Rattle.book_compiler.specs.FunctionSteps.{SparesFunctions, DropsBookFunction, AddsPlainFunction};
ghost use Rattle.book_compiler.specs.DefinitionSteps.{CompilesFunctionDefinition, ImplementsFunction};

use crate::lent::lend_with;
use crate::statements::compile_statement;
use crate::subtree::Subtrees;
use crate::{book, function_state, locals};
use building::context;
use building::function_state::FunctionState;
use compiler_laws::book::Book;
use words::record::field;
use words::reply::CompileError;
use words::{areas, object, record};

// The text of the entry point's name.
const MAIN: u64 = 1;

// Whether the function is an instance's, after a parameter of a kind.
fn instance_by(kind: u64, before: bool) -> bool
    ensures { result ≡ instance_by kind before }
{
    kind == record::THIS_PARAMETER || before
}

// A parameter: a name of the function's scope.
fn parameter(
    tree: &[u64],
    at: usize,
    starts: &[usize; 15],
    memory: &mut [u64],
    state: &mut FunctionState,
)
    ensures { CompilesParameter tree.now at (laid state.old starts.now memory.old)
        (laid state.new starts.now memory.new) }
{
    if state.full != 0 {
        return;
    }
    let kind = field(tree, at, record::KIND);
    let name = field(tree, at, record::VALUE);
    let instance = instance_by(kind, state.is_instance);
    state.set_parameters(instance, state.parameter_count);
    if function_state::define_local(starts, memory, state, name).is_some() {
        return;
    }
    let position = field(tree, at, record::POSITION);
    function_state::push_error(
        starts,
        memory,
        state,
        CompileError::ParameterExists,
        position,
        kind,
        name,
    );
}

// The parameters from a place up to the end.
fn parameters(
    tree: &[u64],
    at: usize,
    end: usize,
    starts: &[usize; 15],
    memory: &mut [u64],
    state: &mut FunctionState,
)
    ensures { CompilesParameters tree.now at end (laid state.old starts.now memory.old)
        (laid state.new starts.now memory.new) }
{
    for i in at..end {
        parameter(tree, i, starts, memory, state);
    }
}

// Whether a record of a kind is a parameter.
fn is_parameter(kind: u64) -> bool
    ensures { result ≡ is_parameter kind }
{
    kind == record::NAME || kind == record::THIS_PARAMETER
}

// Where the parameters end and the body starts.
fn parameters_end(tree: &[u64], at: usize, end: usize) -> usize
    ensures { ParametersEnd tree.now at end result }
{
    let mut i = at;
    // No `for`: the loop ends at the first record that is no parameter, and its place is the answer.
    while i < end && is_parameter(field(tree, i, record::KIND)) {
        i += 1;
    }
    i
}

// The statements from a place up to the end.
fn compile_statements(
    tree: &[u64],
    at: usize,
    end: usize,
    starts: &[usize; 15],
    memory: &mut [u64],
    state: &mut FunctionState,
    start: usize,
    count: usize,
)
    ensures { CompilesStatements tree.now at end start count (laid state.old starts.now memory.old)
        (laid state.new starts.now memory.new) }
{
    for statement in (Subtrees { tree, at, end }) {
        compile_statement(
            tree,
            statement.at,
            statement.end,
            starts,
            memory,
            state,
            start,
            count,
        );
    }
}

// `compile_function_definition_base`, in a state that begins a function.
fn compile_function_definition_base(
    tree: &[u64],
    at: usize,
    end: usize,
    starts: &[usize; 15],
    memory: &mut [u64],
    state: &mut FunctionState,
    start: usize,
    count: usize,
)
    ensures { CompilesBase tree.now at end start count (laid state.old starts.now memory.old)
        (laid state.new starts.now memory.new) }
{
    if at < end {
        let first = parameters_end(tree, at + 1, end);
        parameters(tree, at + 1, first, starts, memory, state);
        let many = first - (at + 1);
        state.set_parameters(state.is_instance, many);
        compile_statements(tree, first, end, starts, memory, state, start, count);
        let position = function_state::get_last_position(starts, memory, state);
        function_state::emit_return(starts, memory, state, position);
        return;
    }
}

// A function's end: no name is left.
fn end_function(starts: &[usize; 15], memory: &mut [u64], state: &mut FunctionState)
    ensures { OnNames end_function_c (laid state.old starts.now memory.old) (laid state.new starts.now memory.new) }
{
    lend_with(
        starts,
        memory,
        areas::SCOPE_NAMES,
        state,
        |names, state| state.end_function(names),
    );
}

// A function's code is given back.
fn drop_function(starts: &[usize; 15], memory: &mut [u64], state: &mut FunctionState)
    ensures { OnCode drop_c (laid state.old starts.now memory.old) (laid state.new starts.now memory.new) }
{
    lend_with(
        starts,
        memory,
        areas::CODE,
        state,
        |code, state| state.drop_function(code),
    );
}

// A function of a book, compiled to its end; nothing is done with the mark set.
fn make(
    tree: &[u64],
    at: usize,
    end: usize,
    starts: &[usize; 15],
    memory: &mut [u64],
    book: &Book,
) -> FunctionState
    ensures { MakesFunction tree.now at end (book_laid book.now starts.now memory.old)
        (laid result starts.now memory.new) }
{
    let mut state = book::working(book);
    if book.full != 0 {
        return state;
    }
    compile_function_definition_base(
        tree,
        at,
        end,
        starts,
        memory,
        &mut state,
        book.first_local,
        book.locals,
    );
    end_function(starts, memory, &mut state);
    state
}

// An entry of area 3 more.
fn add_entry(functions: &mut [u64], book: &mut Book, state: FunctionState, name: u64)
    ensures { (AddsFunction name book.old state functions.old book.new functions.new
        × SparesFunctions state book.old functions.old book.new functions.new)
        × ((book.new.constants ≡ state.constants) × (book.new.standing_methods ≡ book.old.standing_methods)) }
{
    book::resume(book, state);
    context::add_function(
        functions,
        &mut book.full,
        &mut book.functions,
        &state,
        book.file,
        name,
    );
}

// `add_function`
fn add_function(
    starts: &[usize; 15],
    memory: &mut [u64],
    book: &mut Book,
    state: FunctionState,
    name: u64,
)
    ensures { AddsBookFunction name state (book_laid book.old starts.now memory.old)
        (book_laid book.new starts.now memory.new) }
{
    lend_with(
        starts,
        memory,
        areas::FUNCTIONS,
        book,
        |functions, book| add_entry(functions, book, state, name),
    );
}

// An instance's function outside of a model is given up.
fn drop_instance(
    tree: &[u64],
    at: usize,
    starts: &[usize; 15],
    memory: &mut [u64],
    book: &mut Book,
    state: FunctionState,
)
    ensures { DropsBookFunction tree.now at state (book_laid book.old starts.now memory.old)
        (book_laid book.new starts.now memory.new) }
{
    let mut dropped = state;
    drop_function(starts, memory, &mut dropped);
    book::resume(book, dropped);
    book::push_error(
        starts,
        memory,
        tree,
        at,
        book,
        CompileError::InstanceFunction,
    );
}

// The rest of `compile_function_definition`: the function, its constant, its local's value; the last `main`, text 1, is the entry point.
fn add_plain(
    starts: &[usize; 15],
    memory: &mut [u64],
    book: &mut Book,
    state: FunctionState,
    found: Option<u64>,
    name: u64,
) -> u64
    ensures { AddsPlainFunction name found state (book_laid book.old starts.now memory.old)
        (book_laid book.new starts.now memory.new) result }
{
    let index = book.functions as u64;
    add_function(starts, memory, book, state, name);
    let place = book::add_constant(starts, memory, book, object::FUNCTION, index);
    locals::set_value(starts, memory, book, found, place);
    if name == MAIN {
        book.entry_point = index;
    }
    place
}

// `compile_function_definition`
pub(crate) fn compile_function_definition(
    tree: &[u64],
    at: usize,
    end: usize,
    starts: &[usize; 15],
    memory: &mut [u64],
    book: &mut Book,
) -> u64
    ensures { CompilesFunctionDefinition tree.now at end result (book_laid book.old starts.now memory.old)
        (book_laid book.new starts.now memory.new) }
{
    let name = field(tree, at, record::VALUE);
    let found = locals::define_local(starts, memory, book, name);
    let state = make(tree, at, end, starts, memory, book);
    if state.full != 0 {
        book::resume(book, state);
        return 0;
    }
    if state.is_instance {
        drop_instance(tree, at, starts, memory, book, state);
        return 0;
    }
    add_plain(starts, memory, book, state, found, name)
}

// A function of an implement definition.
pub(crate) fn implement_function(
    tree: &[u64],
    at: usize,
    end: usize,
    starts: &[usize; 15],
    memory: &mut [u64],
    book: &mut Book,
)
    ensures { ImplementsFunction tree.now at end (book_laid book.old starts.now memory.old)
        (book_laid book.new starts.now memory.new) }
{
    let name = field(tree, at, record::VALUE);
    let state = make(tree, at, end, starts, memory, book);
    add_function(starts, memory, book, state, name);
}
