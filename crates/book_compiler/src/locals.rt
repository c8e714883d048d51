// `backend/compiler.rs`: a book's context locals (area 7) and `compile_local_definition` over one memory.
ghost use Rattle.std.specs.Prelude.{◌≡◌, ◌+◌, ◌*◌};
ghost use Rattle.words.specs.Areas.{context_locals_area};
ghost use Rattle.definition.specs.Book.{define_context_local};
ghost use Rattle.compiler_laws.specs.BookSteps.{LocalsSeek, LocalsValue};
ghost use Rattle.book_compiler.specs.RepresentsBook.{book_laid};
ghost use Rattle.book_compiler.specs.BookLeaves.{DefinesContextLocal, SetsLocalValue, SparesLocals, SameCounts};
ghost use Rattle.undo.specs.Stood.{Spares};
ghost use Rattle.book_compiler.specs.DefinitionSteps.{AddsLocalValue, GivesLocalValue, CompilesBinding, CompilesLocalDefinition};

use crate::lent::{lend, lend_with};
use crate::subtree::Pairs;
use crate::{book, expressions};
use building::context;
use compiler_laws::book::Book;
use words::record::field;
use words::reply::CompileError;
use words::{areas, object, record};

// `define_local` of the compiler's state, on area 7; nothing is found with the mark set.
fn define_entry(locals: &mut [u64], book: &mut Book, name: u64) -> Option<u64>
    ensures { (LocalsSeek book.old locals.old book.new locals.new result (define_context_local name)
        × Spares context_locals_area book.old.full (book.old.locals * 4) locals.old locals.new)
        × SameCounts book.old book.new }
{
    if book.full != 0 {
        return None;
    }
    context::define_context_local(
        locals,
        &mut book.full,
        book.first_local,
        &mut book.locals,
        book.file,
        name,
    )
}

pub(crate) fn define_local(
    starts: &[usize; 15],
    memory: &mut [u64],
    book: &mut Book,
    name: u64,
) -> Option<u64>
    ensures { DefinesContextLocal name result (book_laid book.old starts.now memory.old)
        (book_laid book.new starts.now memory.new) }
{
    lend_with(
        starts,
        memory,
        areas::CONTEXT_LOCALS,
        book,
        |locals, book| define_entry(locals, book, name),
    )
}

// `local_values.insert` on area 7, where there is a local.
fn set_entry(locals: &mut [u64], book: &Book, found: Option<u64>, constant: u64)
    ensures { LocalsValue book.now locals.old locals.new found constant
        × SparesLocals book.now found locals.old locals.new }
{
    if book.full != 0 {
        return;
    }
    if let Some(i) = found {
        context::set_value(locals, book.full, book.locals, i, constant);
        return;
    }
}

pub(crate) fn set_value(
    starts: &[usize; 15],
    memory: &mut [u64],
    book: &Book,
    found: Option<u64>,
    constant: u64,
)
    ensures { SetsLocalValue found constant (book_laid book.now starts.now memory.old)
        (book_laid book.now starts.now memory.new) }
{
    lend(
        starts,
        memory,
        areas::CONTEXT_LOCALS,
        |locals| set_entry(locals, book, found, constant),
    );
}

// A constant that is the value of a local.
fn add_value(
    starts: &[usize; 15],
    memory: &mut [u64],
    book: &mut Book,
    found: Option<u64>,
    kind: u64,
    value: u64,
)
    ensures { AddsLocalValue found kind value (book_laid book.old starts.now memory.old)
        (book_laid book.new starts.now memory.new) }
{
    let place = book::add_constant(starts, memory, book, kind, value);
    set_value(starts, memory, book, found, place);
}

// The value of a local: a constant that stands, one to add, or none.
fn give_value(
    tree: &[u64],
    at: usize,
    starts: &[usize; 15],
    memory: &mut [u64],
    book: &mut Book,
    found: Option<u64>,
)
    ensures { GivesLocalValue tree.now at found (book_laid book.old starts.now memory.old)
        (book_laid book.new starts.now memory.new) }
{
    let kind = field(tree, at, record::KIND);
    let value = field(tree, at, record::VALUE);
    match kind {
        record::NULL | record::BOOLEAN => {
            set_value(
                starts,
                memory,
                book,
                found,
                expressions::standing(kind, value),
            );
        }
        record::INTEGER => add_value(starts, memory, book, found, object::INTEGER, value),
        record::FLOAT => add_value(starts, memory, book, found, object::FLOAT, value),
        _ => book::push_error(starts, memory, tree, at, book, CompileError::ConstantOnly),
    }
}

// A pair of a local definition: a repeated name is passed over before its value is looked at.
fn compile_binding(
    tree: &[u64],
    at: usize,
    next: usize,
    starts: &[usize; 15],
    memory: &mut [u64],
    book: &mut Book,
)
    ensures { CompilesBinding tree.now at next (book_laid book.old starts.now memory.old)
        (book_laid book.new starts.now memory.new) }
{
    let name = field(tree, at, record::VALUE);
    let found = define_local(starts, memory, book, name);
    if book.full != 0 {
        return;
    }
    let kind = field(tree, next, record::KIND);
    if kind == record::ABSENT {
        return;
    }
    if let Some(i) = found {
        give_value(tree, next, starts, memory, book, Some(i));
    }
}

// Its pairs.
pub(crate) fn compile_local_definition(
    tree: &[u64],
    at: usize,
    end: usize,
    starts: &[usize; 15],
    memory: &mut [u64],
    book: &mut Book,
)
    ensures { CompilesLocalDefinition tree.now (at + 1) end (book_laid book.old starts.now memory.old)
        (book_laid book.new starts.now memory.new) }
{
    for name in (Pairs { at, end }) {
        compile_binding(tree, name, name + 1, starts, memory, book);
    }
}
