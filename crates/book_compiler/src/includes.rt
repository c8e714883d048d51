// `backend/compiler.rs`: `compile_include_definition` over one memory. Areas 8 and 12 are read.
ghost use Rattle.std.specs.Prelude.{◌≡◌, ◌+◌};
ghost use Rattle.std.proofs.Math.Option.{some};
ghost use Rattle.words.specs.Record.{value_at};
ghost use Rattle.building.specs.Found.{found_of};
ghost use Rattle.compiler_laws.specs.IncludeSteps.{find_book_c, is_some, included_by, included_c, AsksNames, AsksMode};
ghost use Rattle.book_compiler.specs.RepresentsBook.{book_laid};
ghost use Rattle.book_compiler.specs.BookLeaves.{FindsIncluded, GivesIncluded};
ghost use Rattle.book_compiler.specs.DefinitionSteps.{CompilesAlias, CompilesAliases, CompilesIncludeDefinition};

use crate::lent::part;
use crate::subtree::Pairs;
use crate::{locals, pairs};
use compiler_laws::book::Book;
use words::record::field;
use words::{areas, record, reply};

// The word of a public name's entry that is its constant.
const CONSTANT: usize = 2;

// The book of a file, the books compiled so far being the first of area 12.
fn find_book(books: &[u64], many: usize, file: u64) -> Option<u64>
    ensures { result ≡ found_of (find_book_c many file books.now) }
{
    for i in 0..many {
        if areas::entry_word(books, areas::BOOK_WORDS, i, 0) == file {
            return Some(i as u64);
        }
    }
    None
}

// The constant of a public name of a file, by areas 8 and 12.
fn included_name(publics: &[u64], books: &[u64], book: &Book, file: u64, name: u64) -> Option<u64>
    ensures { result ≡ found_of (included_c book.now.file book.now.publics file name books.now publics.now) }
{
    let many = book.file as usize;
    let there = find_book(books, many, file);
    if let Some(j) = there {
        let found = pairs::find_pair(publics, areas::PUBLIC_NAME_WORDS, 0, book.publics, j, name);
        if let Some(i) = found {
            let constant = areas::entry_word(
                publics,
                areas::PUBLIC_NAME_WORDS,
                i as usize,
                CONSTANT,
            );
            return Some(constant);
        }
        return None;
    }
    None
}

fn find_constant_index_by_include(
    starts: &[usize; 15],
    memory: &[u64],
    book: &Book,
    file: u64,
    name: u64,
) -> Option<u64>
    ensures { FindsIncluded file name result (book_laid book.now starts.now memory.now) }
{
    included_name(
        part(starts, memory, areas::PUBLIC_NAMES),
        part(starts, memory, areas::BOOKS),
        book,
        file,
        name,
    )
}

// A pair of an include: an unfound public name leaves its local without value.
fn compile_alias(
    tree: &[u64],
    at: usize,
    next: usize,
    starts: &[usize; 15],
    memory: &mut [u64],
    file: u64,
    book: &mut Book,
)
    ensures { CompilesAlias tree.now at next file (book_laid book.old starts.now memory.old)
        (book_laid book.new starts.now memory.new) }
{
    let local = field(tree, next, record::VALUE);
    let found = locals::define_local(starts, memory, book, local);
    if book.full != 0 {
        return;
    }
    let name = field(tree, at, record::VALUE);
    let value = find_constant_index_by_include(starts, memory, book, file, name);
    if let Some(constant) = value {
        locals::set_value(starts, memory, book, found, constant);
    }
}

// The pairs of an include.
fn compile_aliases(
    tree: &[u64],
    at: usize,
    end: usize,
    starts: &[usize; 15],
    memory: &mut [u64],
    book: &mut Book,
)
    ensures { CompilesAliases tree.now (at + 1) end (value_at tree.now at)
        (book_laid book.old starts.now memory.old) (book_laid book.new starts.now memory.new) }
{
    let file = field(tree, at, record::VALUE);
    for name in (Pairs { at, end }) {
        compile_alias(tree, name, name + 1, starts, memory, file, book);
    }
}

// Whether a book has a public name.
fn is_public(publics: &[u64], count: usize, book: u64, name: u64) -> bool
    ensures { result ≡ is_some (included_by (some book) count name publics.now) }
{
    let found = pairs::find_pair(publics, areas::PUBLIC_NAME_WORDS, 0, count, book, name);
    found.is_some()
}

// Whether a book has all the public names that the pairs of an include list.
fn all_public(tree: &[u64], at: usize, end: usize, publics: &[u64], count: usize, book: u64) -> bool
    ensures { AsksNames tree.now (at + 1) end (some book) count publics.now result }
{
    for place in (Pairs { at, end }) {
        let name = field(tree, place, record::VALUE);
        if !is_public(publics, count, book, name) {
            return false;
        }
    }
    true
}

// Whether an include gives values: in the present mode always, in strict mode where every name that it lists is public in its file.
fn gives_values(
    tree: &[u64],
    at: usize,
    end: usize,
    book: &Book,
    publics: &[u64],
    books: &[u64],
) -> bool
    ensures { AsksMode tree.now at end books.now publics.now book.now result }
{
    if !book.strict {
        return true;
    }
    let file = field(tree, at, record::VALUE);
    let many = book.file as usize;
    let there = find_book(books, many, file);
    if let Some(j) = there {
        return all_public(tree, at, end, publics, book.publics, j);
    }
    if end <= at {
        return true;
    }
    end - at <= 2
}

// The same over the memory.
fn include_gives_values(
    tree: &[u64],
    at: usize,
    end: usize,
    starts: &[usize; 15],
    memory: &[u64],
    book: &Book,
) -> bool
    ensures { GivesIncluded tree.now at end result (book_laid book.now starts.now memory.now) }
{
    gives_values(
        tree,
        at,
        end,
        book,
        part(starts, memory, areas::PUBLIC_NAMES),
        part(starts, memory, areas::BOOKS),
    )
}

// In strict mode it is asked of all names first (2026-07), and row 11 takes the place of a full area's mark.
pub(crate) fn compile_include_definition(
    tree: &[u64],
    at: usize,
    end: usize,
    starts: &[usize; 15],
    memory: &mut [u64],
    book: &mut Book,
)
    ensures { CompilesIncludeDefinition tree.now at end (book_laid book.old starts.now memory.old)
        (book_laid book.new starts.now memory.new) }
{
    if book.full != 0 {
        return;
    }
    if tree.len() <= at {
        return;
    }
    if !include_gives_values(tree, at, end, starts, memory, book) {
        book.full = reply::FIRST_NOT_PUBLIC + at as u64;
        return;
    }
    compile_aliases(tree, at, end, starts, memory, book);
}
