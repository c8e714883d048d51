// The book under compilation over one memory: its errors, lent their part, and its constants.
ghost use Rattle.std.specs.Prelude.{◌≡◌};
ghost use Rattle.words.specs.Record.{token_at, kind_at, position_at, value_at};
ghost use Rattle.words.specs.Reply.{number_of_error};
ghost use Rattle.building.specs.Pool.{erring, push_error_c};
ghost use Rattle.building.specs.State.{begun};
ghost use Rattle.compiler_laws.specs.BookSteps.{resumed_book};
ghost use Rattle.book_compiler.specs.RepresentsBook.{book_laid};
ghost use Rattle.book_compiler.specs.BookLeaves.{PushesBookError, AddsBookConstant};

use crate::function_state;
use crate::lent::lend_with;
use building::function_state::FunctionState;
use compiler_laws::book::Book;
use words::record::field;
use words::reply::CompileError;
use words::{areas, record};

// The state that functions, constants and errors work on, and back.
pub(crate) fn working(book: &Book) -> FunctionState
    ensures { result ≡ begun book.now.full book.now.code book.now.constants book.now.errors }
{
    FunctionState::new(book.full, book.code, book.constants, book.errors)
}

pub(crate) fn resume(book: &mut Book, state: FunctionState)
    ensures { book.new ≡ resumed_book book.old state }
{
    book.full = state.full;
    book.code = state.code;
    book.constants = state.constants;
    book.errors = state.errors;
}

// An error at the token that a record is, with the state that errors work on.
fn fault(
    tree: &[u64],
    at: usize,
    errors: &mut [u64],
    state: &mut FunctionState,
    error: CompileError,
)
    ensures { erring state.new errors.new ≡ push_error_c (number_of_error error) (position_at tree.now at) (kind_at tree.now at)
        (value_at tree.now at) state.old errors.old }
{
    let kind = field(tree, at, record::KIND);
    let position = field(tree, at, record::POSITION);
    let value = field(tree, at, record::VALUE);
    state.push_error(errors, error.number(), position, kind, value);
}

// An error at the token that a record is.
pub(crate) fn push_error(
    starts: &[usize; 15],
    memory: &mut [u64],
    tree: &[u64],
    at: usize,
    book: &mut Book,
    error: CompileError,
)
    ensures { PushesBookError (number_of_error error) (token_at tree.now at) (book_laid book.old starts.now memory.old)
        (book_laid book.new starts.now memory.new) }
{
    let mut state = working(book);
    lend_with(
        starts,
        memory,
        areas::ERRORS,
        &mut state,
        |errors, state| fault(tree, at, errors, state, error),
    );
    resume(book, state);
}

// The constant of a function that begins, in the book's state.
pub(crate) fn add_constant(
    starts: &[usize; 15],
    memory: &mut [u64],
    book: &mut Book,
    kind: u64,
    value: u64,
) -> u64
    ensures { AddsBookConstant kind value result (book_laid book.old starts.now memory.old)
        (book_laid book.new starts.now memory.new) }
{
    let mut state = working(book);
    let place = function_state::add_constant(starts, memory, &mut state, kind, value);
    resume(book, state);
    place
}
