// `backend/compiler.rs`: definitions and `compile_document` over one memory.
ghost use Rattle.book_compiler.specs.RepresentsBook.{book_laid, CompilesDefinition, CompilesDefinitions, CompilesDocument};

use crate::subtree::Subtrees;
use crate::{functions, implements, includes, locals, models};
use compiler_laws::book::Book;
use words::record;
use words::record::{RecordKind, field};

// By its kind; what is public is then published.
fn compile_definition(
    tree: &[u64],
    at: usize,
    end: usize,
    starts: &[usize; 15],
    memory: &mut [u64],
    book: &mut Book,
)
    ensures { CompilesDefinition tree.now at end (book_laid book.old starts.now memory.old)
        (book_laid book.new starts.now memory.new) }
{
    let kind = RecordKind::try_from(field(tree, at, record::KIND));
    match kind.unwrap_or(RecordKind::ApplyDefinition) {
        RecordKind::LocalDefinition => {
            locals::compile_local_definition(tree, at, end, starts, memory, book);
        }
        RecordKind::IncludeDefinition => {
            includes::compile_include_definition(tree, at, end, starts, memory, book);
        }
        RecordKind::ModelDefinition => {
            models::compile_model_definition(tree, at, end, starts, memory, book);
        }
        RecordKind::PublicModelDefinition => {
            let name = field(tree, at, record::VALUE);
            let model = models::compile_model_definition(tree, at, end, starts, memory, book);
            models::publish(starts, memory, book, model, name);
        }
        RecordKind::FunctionDefinition => {
            functions::compile_function_definition(tree, at, end, starts, memory, book);
        }
        RecordKind::PublicFunctionDefinition => {
            let name = field(tree, at, record::VALUE);
            let function = functions::compile_function_definition(
                tree, at, end, starts, memory, book,
            );
            models::publish(starts, memory, book, function, name);
        }
        RecordKind::ImplementDefinition => {
            implements::compile_implement_definition(tree, at, end, starts, memory, book);
        }
        _ => models::compile_apply_definition(tree, at, end, starts, memory, book),
    }
}

// The definitions from a place up to the end.
fn compile_definitions(
    tree: &[u64],
    at: usize,
    end: usize,
    starts: &[usize; 15],
    memory: &mut [u64],
    book: &mut Book,
)
    ensures { CompilesDefinitions tree.now at end (book_laid book.old starts.now memory.old)
        (book_laid book.new starts.now memory.new) }
{
    for definition in (Subtrees { tree, at, end }) {
        compile_definition(tree, definition.at, definition.end, starts, memory, book);
    }
}

// Of the document at a place: its index is the number of books compiled.
pub(crate) fn compile_document(
    tree: &[u64],
    at: usize,
    end: usize,
    starts: &[usize; 15],
    memory: &mut [u64],
    book: &mut Book,
    index: u64,
)
    ensures { CompilesDocument tree.now at end index (book_laid book.old starts.now memory.old)
        (book_laid book.new starts.now memory.new) }
{
    book.file = index;
    book.first_local = book.locals;
    book.first_public = book.publics;
    if end <= at {
        return;
    }
    let first = at + 1;
    compile_definitions(tree, first, end, starts, memory, book);
}
