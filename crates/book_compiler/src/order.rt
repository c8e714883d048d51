// The order of the books over area 12 of one memory: which one is next, and the errors where none is (row 8). Private: their promise is relational.
// Part i has the words from starts[i] up to starts[i + 1].
ghost use Rattle.std.specs.Prelude.{◌≡◌, [], ◌∷◌, take};
ghost use Rattle.words.specs.Areas.{errors_area, books_area, entry_field};
ghost use Rattle.building.specs.Taking.{Took, taken};
ghost use Rattle.compiler_laws.specs.SolverSteps.{NarrowNumbers, AddsNumbers};
ghost use Rattle.book_compiler.specs.BookOrder.{LentPart, ReadsPart, PicksNext, PushesRingErrorsIn};

use crate::lent::{lend, lend_with, part};
use crate::solver;
use building::taking;
use building::taking::Taken;
use words::areas;
use words::reply::CompileError;

// The book that is compiled next: its file number, and its document's place.
#[derive(Clone, Copy)]
pub struct Next {
    pub file: u64,
    pub at: usize,
}

// None where no book is ready.
fn pick_next(
    tree: &[u64],
    end: usize,
    done: usize,
    count: usize,
    compiled: &[u64],
    books: &mut [u64],
) -> Option<Next>
    ensures { PicksNext tree.now end done count compiled.now result books.old books.new }
{
    let index = solver::next_ready(tree, end, done, count, compiled, books)?;
    let entry = areas::entry_word(books, areas::BOOK_WORDS, index, 0);
    let file = entry / solver::BOOK_UNIT;
    let at = (entry % solver::PLACE_UNIT) as usize;
    solver::move_to_front(books, done, index, file);
    Some(Next { file, at })
}

pub(crate) fn next_book(
    tree: &[u64],
    records: usize,
    done: usize,
    count: usize,
    compiled: &[u64],
    starts: &[usize; 15],
    memory: &mut [u64],
) -> Option<Next>
    ensures { LentPart books_area (PicksNext tree.now records done count compiled.now result) starts.now
        memory.old memory.new }
{
    lend(starts, memory, areas::BOOKS, |books| {
        pick_next(tree, records, done, count, compiled, books)
    })
}

// The file numbers of the books that stand: the first words of area 12.
fn standing_books<'a>(stand: usize, starts: &[usize; 15], memory: &'a [u64]) -> &'a [u64]
    ensures { ReadsPart books_area (λ o. result.now ≡ take stand o) starts.now memory.now }
{
    let books = part(starts, memory, areas::BOOKS);
    &books[..stand.min(books.len())]
}

// Whether the file numbers of `stand` books that stand are all small enough for a set of 64 words.
#[tactic(auto, using(crate::proofs::StandingBooks::all_narrow))]
pub(crate) fn narrow_standing(stand: usize, starts: &[usize; 15], memory: &[u64]) -> bool
    ensures { ReadsPart books_area (λ o. NarrowNumbers (take stand o) result) starts.now memory.now }
{
    solver::narrow_books(standing_books(stand, starts, memory))
}

// Their set, from an empty one.
pub(crate) fn add_standing(stand: usize, starts: &[usize; 15], memory: &[u64], set: &mut [u64])
    ensures { ReadsPart books_area (λ o. AddsNumbers (take stand o) set.old set.new) starts.now memory.now }
{
    solver::add_books(standing_books(stand, starts, memory), set);
}

// The word of a book in area 12.
fn book_word(starts: &[usize; 15], memory: &[u64], index: usize) -> u64
    ensures { ReadsPart books_area (λ o. result ≡ entry_field 1 index 0 o) starts.now memory.now }
{
    areas::entry_word(
        part(starts, memory, areas::BOOKS),
        areas::BOOK_WORDS,
        index,
        0,
    )
}

// An error 11 with a file number.
fn push_ring_error(t: Taken, file: u64, starts: &[usize; 15], memory: &mut [u64]) -> Taken
    ensures { LentPart errors_area (λ e e'. Took errors_area t.full t.count (11 ∷ 0 ∷ 0 ∷ file ∷ []) e result e') starts.now
        memory.old memory.new }
{
    let mut after = t;
    lend_with(starts, memory, areas::ERRORS, &mut after, |errors, after| {
        taking::take(
            errors,
            areas::ERRORS,
            &mut after.full,
            &mut after.count,
            [CompileError::Ring.number(), 0, 0, file],
        )
    });
    after
}

// Row 8: an error 11 for each book left.
pub(crate) fn ring(done: usize, count: usize, starts: &[usize; 15], memory: &mut [u64]) -> Taken
    ensures { PushesRingErrorsIn done count (taken 0 0) starts.now memory.old result memory.new }
{
    let mut t = Taken { full: 0, count: 0 };
    for k in done..count {
        let word = book_word(starts, memory, k);
        t = push_ring_error(t, word / solver::BOOK_UNIT, starts, memory);
    }
    t
}
