// A book's methods (area 6) over one memory. Those that stood before the bundle have a note in their words (2026-01), which the routines of `undo` pass over.
ghost use Rattle.std.specs.Prelude.{◌≡◌};
ghost use Rattle.book_compiler.specs.RepresentsBook.{book_laid};
ghost use Rattle.book_compiler.specs.BookLeaves.{InsertsNoted, CopiesNoted, CopiesAllNoted, SameCounts, InsertsBookMethod, CopiesBookMethods};

use crate::lent::lend_with;
use building::taking;
use compiler_laws::book::Book;
use words::areas;

// One entry for a model and a name: the last function wins.
fn insert_entry(methods: &mut [u64], book: &mut Book, model: u64, name: u64, function: u64)
    ensures { InsertsNoted model name function book.old methods.old book.new methods.new }
{
    if book.full != 0 {
        return;
    }
    let found = undo::methods::find_method(
        methods,
        book.standing_methods,
        book.methods,
        model,
        name,
    );
    if let Some(i) = found {
        undo::methods::set_function(methods, book.standing_methods, i as usize, function);
        return;
    }
    taking::take(
        methods,
        areas::METHODS,
        &mut book.full,
        &mut book.methods,
        [model, name, function],
    );
}

pub(crate) fn insert_method(
    starts: &[usize; 15],
    memory: &mut [u64],
    book: &mut Book,
    model: u64,
    name: u64,
    function: u64,
)
    ensures { InsertsBookMethod model name function (book_laid book.old starts.now memory.old)
        (book_laid book.new starts.now memory.new) }
{
    lend_with(starts, memory, areas::METHODS, book, |methods, book| {
        insert_entry(methods, book, model, name, function)
    })
}

// One method of the source under the target, if it is one.
fn copy_entry(methods: &mut [u64], book: &mut Book, i: usize, source: u64, target: u64)
    ensures { CopiesNoted source target i book.old methods.old book.new methods.new }
{
    if book.full != 0 {
        return;
    }
    let model = undo::methods::method_model(methods, book.standing_methods, i);
    if model != source {
        return;
    }
    let name = undo::methods::method_name(methods, book.standing_methods, i);
    let function = undo::methods::method_function(methods, book.standing_methods, i);
    insert_entry(methods, book, target, name, function);
}

// The methods that there are of the source, one by one under the target.
fn copy_entries(methods: &mut [u64], book: &mut Book, source: u64, target: u64)
    ensures { CopiesAllNoted source target book.old methods.old book.new methods.new × SameCounts book.old book.new }
{
    let count = book.methods;
    for i in 0..count {
        copy_entry(methods, book, i, source, target);
    }
}

pub(crate) fn copy_methods(
    starts: &[usize; 15],
    memory: &mut [u64],
    book: &mut Book,
    source: u64,
    target: u64,
)
    ensures { CopiesBookMethods source target (book_laid book.old starts.now memory.old)
        (book_laid book.new starts.now memory.new) }
{
    lend_with(starts, memory, areas::METHODS, book, |methods, book| {
        copy_entries(methods, book, source, target)
    })
}
