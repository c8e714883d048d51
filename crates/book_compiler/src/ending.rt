// The end of a call: what the reply says, and what stays in the memory. Private: their promise is relational.
// Part i has the words from starts[i] up to starts[i + 1].
ghost use Rattle.std.specs.Prelude.{◌≡◌};
ghost use Rattle.words.specs.Areas.{constants_area, methods_area, cleared_from};
ghost use Rattle.words.specs.Reply.{delivery, refusal};
ghost use Rattle.words.specs.Row.{row_number};
ghost use Rattle.compiler_laws.specs.BooksInOrder.{mark_of, MarkedFrom};
ghost use Rattle.compiler_laws.specs.CallEnd.{totals, mark_refusal};
ghost use Rattle.book_compiler.specs.RepresentsBook.{book_laid};
ghost use Rattle.book_compiler.specs.Rows.{row_in, place_or_books};
ghost use Rattle.book_compiler.specs.BookOrder.{LentPart, LentButErrors, ReadsPart, ClearsButErrors, Settles, Finishes};
ghost use Rattle.undo.specs.Notes.{plain_marks, settled_marks, plain_methods};

use crate::lent::{lend, part};
use crate::slots;
use compiler_laws::book::Book;
use words::reply::{Reply, Totals};
use words::row::{Refused, Row};
use words::{areas, reply};

// How many parts the memory has: area 0, which is empty, the twelve areas, and the slots.
pub(crate) const PART_COUNT: u64 = 14;

// How the books end: the counts, and how many books there are, or what refuses the bundle. With the counts' mark set the rest says nothing.
#[derive(Clone, Copy)]
pub struct Ended {
    pub book: Book,
    pub outcome: Result<usize, Refused>,
}

pub(crate) fn refused_at(refused: Refused) -> Reply
    ensures { result ≡ refusal (row_number refused.row) refused.place }
{
    Reply::refused(refused.row.number(), refused.place as u64)
}

// A mark, whatever is noted of it (2026-01).
fn one_if(word: u64) -> u64
    ensures { result ≡ mark_of word }
{
    (word != 0) as u64
}

// The constants that are marked.
fn count_marked(constants: &[u64], count: usize) -> u64
    ensures { MarkedFrom (plain_marks constants.now) 0 count 0 result }
{
    let mut n: u64 = 0;
    for i in 0..count {
        let word = areas::entry_word(constants, areas::CONSTANT_WORDS, i, 2);
        n += one_if(word);
    }
    n
}

pub(crate) fn count_global_dependencies(count: usize, starts: &[usize; 15], memory: &[u64]) -> u64
    ensures { ReadsPart constants_area (λ k. MarkedFrom (plain_marks k) 0 count 0 result) starts.now memory.now }
{
    count_marked(part(starts, memory, areas::CONSTANTS), count)
}

// The row of a mark: a full area, or an include with a name that is not public.
fn refused_by(full: u64) -> Reply
    ensures { result ≡ mark_refusal full }
{
    if full < reply::FIRST_NOT_PUBLIC {
        return refused_at(Row::AreaFull.at(full as usize));
    }
    refused_at(Row::NameNotPublic.at((full - reply::FIRST_NOT_PUBLIC) as usize))
}

// Zeros in part i; the errors of rows 7 and 8 stay.
fn clear_part(i: u64, starts: &[usize; 15], memory: &mut [u64])
    ensures { LentButErrors i (λ x y. y ≡ cleared_from 0 x) starts.now memory.old memory.new }
{
    if i != areas::ERRORS && i < PART_COUNT {
        lend(starts, memory, i, |words| areas::clear_from(words, 0));
    }
}

fn clear_but_errors(starts: &[usize; 15], memory: &mut [u64])
    ensures { ClearsButErrors starts.now memory.old memory.new }
{
    for i in 0..PART_COUNT {
        clear_part(i, starts, memory);
    }
}

// What a delivery of so many books says, with so many bundles.
pub(crate) fn delivered(book: Book, books: usize, marked: u64, bundles: u64) -> Reply
    ensures { result ≡ delivery (totals book books marked bundles) }
{
    let totals = Totals {
        code: book.code as u64,
        constants: book.constants as u64,
        functions: book.functions as u64,
        models: book.models as u64,
        properties: book.properties as u64,
        methods: book.methods as u64,
        context_locals: book.locals as u64,
        public_names: book.publics as u64,
        scope_names: 0,
        breaks: 0,
        errors: 0,
        books: books as u64,
        entry_point: book.entry_point,
        global_dependencies: marked,
        bundles,
    };
    Reply::delivered(totals)
}

// The marks of the constants in use without what was noted of them (2026-01).
fn settle_constants(count: usize, starts: &[usize; 15], memory: &mut [u64])
    ensures { LentPart constants_area (λ k k'. k' ≡ settled_marks count k) starts.now memory.old memory.new }
{
    lend(starts, memory, areas::CONSTANTS, |constants| {
        undo::marks::settle_marks(constants, count)
    });
}

// The methods, likewise.
fn settle_methods(stood: usize, starts: &[usize; 15], memory: &mut [u64])
    ensures { LentPart methods_area (λ t t'. t' ≡ plain_methods stood t) starts.now memory.old memory.new }
{
    lend(starts, memory, areas::METHODS, |methods| {
        undo::methods::settle_methods(methods, stood)
    });
}

// A delivery's areas as they stay: nothing noted, no slots.
pub(crate) fn settle(count: usize, stood: usize, starts: &[usize; 15], memory: &mut [u64])
    ensures { Settles count stood starts.now memory.old memory.new }
{
    settle_constants(count, starts, memory);
    settle_methods(stood, starts, memory);
    slots::clear_slots(starts, memory);
}

// The end of a call: a full area or a row clears the memory, the errors of rows 7 and 8 apart; else the notes and the slots go, and the reply says what
// stands in the areas.
pub(crate) fn finish(ended: Ended, starts: &[usize; 15], memory: &mut [u64]) -> Reply
    ensures { Finishes (book_laid ended.book starts.now memory.old) (row_in ended.outcome) (place_or_books ended.outcome)
        memory.new result }
{
    let full = ended.book.full;
    if full != 0 {
        areas::clear_from(memory, 0);
        return refused_by(full);
    }
    match ended.outcome {
        Err(refused) => {
            clear_but_errors(starts, memory);
            refused_at(refused)
        }
        Ok(books) => {
            let marked = count_global_dependencies(ended.book.constants, starts, memory);
            settle(
                ended.book.constants,
                ended.book.standing_methods,
                starts,
                memory,
            );
            delivered(ended.book, books, marked, 1)
        }
    }
}
