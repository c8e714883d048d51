// `backend/compiler.rs`: `compile_implement_definition` over one memory: the functions, then the model, then its methods.
ghost use Rattle.book_compiler.specs.RepresentsBook.{book_laid};
ghost use Rattle.book_compiler.specs.DefinitionSteps.{ImplementsFunctions, ImplementsMethods, CompilesImplementDefinition};

use crate::subtree::Subtrees;
use crate::{functions, methods, models};
use compiler_laws::book::Book;
use words::record;
use words::record::field;

// The functions from a place up to the end.
fn implement_functions(
    tree: &[u64],
    at: usize,
    end: usize,
    starts: &[usize; 15],
    memory: &mut [u64],
    book: &mut Book,
)
    ensures { ImplementsFunctions tree.now at end (book_laid book.old starts.now memory.old)
        (book_laid book.new starts.now memory.new) }
{
    for function in (Subtrees { tree, at, end }) {
        functions::implement_function(tree, function.at, function.end, starts, memory, book);
    }
}

// The methods of a model: the functions from number `first` on.
fn implement_methods(
    tree: &[u64],
    at: usize,
    end: usize,
    starts: &[usize; 15],
    memory: &mut [u64],
    book: &mut Book,
    model: u64,
    first: usize,
)
    ensures { ImplementsMethods tree.now at end model first book.old.functions
        (book_laid book.old starts.now memory.old) (book_laid book.new starts.now memory.new) }
{
    let count = book.functions;
    let mut number = first;
    for function in (Subtrees { tree, at, end }) {
        if number >= count {
            return;
        }
        let name = field(tree, function.at, record::VALUE);
        methods::insert_method(starts, memory, book, model, name, number as u64);
        number += 1;
    }
}

pub(crate) fn compile_implement_definition(
    tree: &[u64],
    at: usize,
    end: usize,
    starts: &[usize; 15],
    memory: &mut [u64],
    book: &mut Book,
)
    ensures { CompilesImplementDefinition tree.now at end (book_laid book.old starts.now memory.old)
        (book_laid book.new starts.now memory.new) }
{
    if book.full != 0 {
        return;
    }
    if at < end {
        let first = at + 1;
        let before = book.functions;
        implement_functions(tree, first, end, starts, memory, book);
        let found = models::find_model_index_by_local_name(tree, at, starts, memory, book);
        if book.full != 0 {
            return;
        }
        if let Some(model) = found {
            implement_methods(tree, first, end, starts, memory, book, model, before);
        }
    }
}
