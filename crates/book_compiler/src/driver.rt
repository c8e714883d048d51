// `backend/dependency_solver.rs`: the books of a bundle, one after the other, over one memory. Private: their promise is relational.
// Part i has the words from starts[i] up to starts[i + 1].
ghost use Rattle.std.specs.Prelude.{◌≡◌, ◌≤◌, length, replicate};
ghost use Rattle.words.specs.Areas.{constants_area, books_area};
ghost use Rattle.words.specs.Record.{most_records};
ghost use Rattle.compiler_laws.specs.SolverSteps.{TakesBooks};
ghost use Rattle.undo.specs.Notes.{plain_marks};
ghost use Rattle.compiler_laws.specs.BooksInOrder.{ChecksRows, Fresh, FirstConstants, begun_book};
ghost use Rattle.book_compiler.specs.RepresentsBook.{book_laid};
ghost use Rattle.book_compiler.specs.Rows.{row_in, place_in, place_or_books};
ghost use Rattle.book_compiler.specs.BookOrder.{LentPart, Drives, CompilesNeeded, Works, Runs};

use crate::definitions::compile_document;
use crate::ending::Ended;
use crate::lent::lend;
use crate::{ending, order, slots, solver, subtree};
use building::taking;
use building::taking::Taken;
use compiler_laws::book::Book;
use words::reply::Reply;
use words::row::{Refused, Row};
use words::{areas, record};

// Rows 2 to 6, and the set of the books needed, from the set of those that stand and three empty sets.
pub(crate) fn check_bundle(
    tree: &[u64],
    standing: &[u64],
    chosen: &mut [u64],
    present: &mut [u64],
    next: &mut [u64],
) -> Result<(), Refused>
    requires { Fresh tree.now chosen.old × (present.old ≡ chosen.old) × (next.old ≡ chosen.old) }
    ensures { ChecksRows tree.now standing.now (row_in result) (place_in result) chosen.new }
{
    tree::check(tree)?;
    let end = tree.len() / 4;
    if let Some(place) = solver::twice(tree, end, present) {
        return Err(Row::BookTwice.at(place as usize));
    }
    present.fill(0);
    solver::needed(tree, end, standing, present, chosen, next);
    present.fill(0);
    solver::twice(tree, end, present);
    if let Some(file) = solver::missing(chosen, present) {
        return Err(Row::BookMissing.at(file as usize));
    }
    Ok(())
}

// The three constants that every program begins with: null, true and false.
fn first_constants(constants: &mut [u64]) -> Taken
    ensures { FirstConstants (plain_marks constants.old) result (plain_marks constants.new) }
{
    let mut t = Taken { full: 0, count: 0 };
    taking::take(
        constants,
        areas::CONSTANTS,
        &mut t.full,
        &mut t.count,
        [0, 0, 0],
    );
    taking::take(
        constants,
        areas::CONSTANTS,
        &mut t.full,
        &mut t.count,
        [1, 1, 0],
    );
    taking::take(
        constants,
        areas::CONSTANTS,
        &mut t.full,
        &mut t.count,
        [1, 0, 0],
    );
    t
}

fn begin_constants(starts: &[usize; 15], memory: &mut [u64]) -> Taken
    ensures { LentPart constants_area (λ k k'. FirstConstants (plain_marks k) result (plain_marks k')) starts.now memory.old
        memory.new }
{
    lend(starts, memory, areas::CONSTANTS, |constants| {
        first_constants(constants)
    })
}

// An entry of area 12 for each book needed, behind those of the books that stand.
fn begin_books(
    tree: &[u64],
    records: usize,
    chosen: &[u64],
    full: u64,
    stand: usize,
    starts: &[usize; 15],
    memory: &mut [u64],
) -> Taken
    requires { records ≤ most_records }
    ensures { LentPart books_area (λ o o'. TakesBooks tree.now records chosen.now full stand o result o') starts.now
        memory.old memory.new }
{
    lend(starts, memory, areas::BOOKS, |books| {
        solver::take_books(tree, records, chosen, full, stand, books)
    })
}

// The counts of the beginning.
fn begun(constants: Taken, strict: bool) -> Book
    ensures { result ≡ begun_book strict constants constants.count }
{
    Book {
        full: constants.full,
        code: 0,
        constants: constants.count,
        functions: 0,
        models: 0,
        properties: 0,
        methods: 0,
        locals: 0,
        publics: 0,
        errors: 0,
        file: 0,
        first_local: 0,
        first_public: 0,
        entry_point: 0,
        standing_methods: 0,
        strict,
    }
}

// `compile_to`: the books one after the other, from the first that is ready; `from` of them stand.
fn drive(
    tree: &[u64],
    end: usize,
    from: usize,
    count: usize,
    book: &mut Book,
    starts: &[usize; 15],
    memory: &mut [u64],
    compiled: &mut [u64],
) -> Result<usize, Refused>
    requires { book.old.full ≡ 0 }
    ensures { Drives tree.now end from count compiled.old (book_laid book.old starts.now memory.old)
        (book_laid book.new starts.now memory.new) (row_in result) (place_or_books result) }
{
    for done in from..count {
        let Some(next) = order::next_book(tree, end, done, count, compiled, starts, memory) else {
            let errors = order::ring(done, count, starts, memory);
            book.full = errors.full;
            book.errors = errors.count;
            return Err(Row::Ring.at(count - done));
        };
        let last = subtree::skip(tree, next.at, end);
        compile_document(tree, next.at, last, starts, memory, book, done as u64);
        if book.full != 0 {
            return Ok(done);
        }
        if book.errors != 0 {
            return Err(Row::BookFaulty.at(next.file as usize));
        }
        solver::add(compiled, next.file);
    }
    Ok(count)
}

// `compile_to` after row 6: the books that are needed, behind the `stand` books that stand in a memory; the set of the compiled begins with those.
pub(crate) fn compile_needed(
    tree: &[u64],
    chosen: &[u64],
    stand: usize,
    book: &mut Book,
    starts: &[usize; 15],
    memory: &mut [u64],
    compiled: &mut [u64],
) -> Result<usize, Refused>
    ensures { CompilesNeeded tree.now chosen.now compiled.old stand
        (book_laid book.old starts.now memory.old) (book_laid book.new starts.now memory.new) (row_in result) (place_or_books result) }
{
    let end = tree.len() / 4;
    if record::MOST_RECORDS < end {
        return Ok(stand);
    }
    let t = begin_books(tree, end, chosen, book.full, stand, starts, memory);
    book.full = t.full;
    if t.full != 0 {
        return Ok(stand);
    }
    drive(tree, end, stand, t.count, book, starts, memory, compiled)
}

// The books that are needed, into a memory of zeros, with an empty set for those compiled. The slots are filled with the first constants (2026-12).
fn work(
    tree: &[u64],
    strict: bool,
    chosen: &[u64],
    starts: &[usize; 15],
    memory: &mut [u64],
    compiled: &mut [u64],
) -> Ended
    requires { compiled.old ≡ replicate (length chosen.now) 0 }
    ensures { Works strict tree.now chosen.now starts.now memory.old
        (book_laid result.book starts.now memory.new) (row_in result.outcome) (place_or_books result.outcome) }
{
    let x = begin_constants(starts, memory);
    slots::fill_slots(starts, memory, x.count);
    let mut book = begun(x, strict);
    let outcome = compile_needed(tree, chosen, 0, &mut book, starts, memory, compiled);
    Ended { book, outcome }
}

// The call from a memory of zeros and three empty sets: no book stands; rows 2 to 6, the work, its end. The third set, cleared, is that of the books compiled.
fn run_in(
    tree: &[u64],
    strict: bool,
    chosen: &mut [u64],
    present: &mut [u64],
    next: &mut [u64],
    starts: &[usize; 15],
    memory: &mut [u64],
) -> Reply
    requires { Fresh tree.now chosen.old × (present.old ≡ chosen.old) × (next.old ≡ chosen.old) }
    ensures { Runs strict tree.now starts.now memory.old memory.new result }
{
    let none = [0; 1];
    if let Err(refused) = check_bundle(tree, &none, chosen, present, next) {
        return ending::refused_at(refused);
    }
    next.fill(0);
    let ended = work(tree, strict, chosen, starts, memory, next);
    ending::finish(ended, starts, memory)
}

// The same with sets of N words, in which every file number of the bundle has a bit.
fn run_with<const N: usize>(
    tree: &[u64],
    strict: bool,
    starts: &[usize; 15],
    memory: &mut [u64],
) -> Reply
    requires short { N ≤ 16384 }
    requires fresh { Fresh tree.now (replicate N 0) }
    ensures { Runs strict tree.now starts.now memory.old memory.new result }
{
    run_in(
        tree,
        strict,
        &mut [0; N],
        &mut [0; N],
        &mut [0; N],
        starts,
        memory,
    )
}

// The call from a memory of zeros. Its sets of file numbers are short where the bundle's numbers are small, 1.5 KiB in all, else 384 KiB: clearing and
// scanning long ones takes longer than compiling a small bundle, and a call that does not need them does not reserve their words.
pub(crate) fn run(tree: &[u64], strict: bool, starts: &[usize; 15], memory: &mut [u64]) -> Reply
    ensures { Runs strict tree.now starts.now memory.old memory.new result }
{
    let end = tree.len() / 4;
    if solver::narrow(tree, end) {
        return run_with::<{ solver::NARROW_WORDS }>(tree, strict, starts, memory);
    }
    run_with::<{ solver::SET_WORDS }>(tree, strict, starts, memory)
}
