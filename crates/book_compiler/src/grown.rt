// Calls on a program that stands in the memory: laying on (2026-01), a trial and a commit (2026-08). Private: their promise is relational.
// Part i has the words from starts[i] up to starts[i + 1].
ghost use Rattle.std.specs.Prelude.{◌≡◌, ◌≤◌, ◌*◌, length, replicate};
ghost use Rattle.compiler_laws.specs.BooksInOrder.{Fresh, begun_onto};
ghost use Rattle.compiler_laws.specs.CallEnd as ends;
ghost use Rattle.compiler_laws.specs.CallEnd.{refusal_with, mark_refusal_with};
ghost use Rattle.words.specs.Reply.{delivery};
ghost use Rattle.words.specs.Row.{row_number};
ghost use Rattle.definition.specs.Promise.{saying};
ghost use Rattle.definition.specs.Trial.{is_stale, line_one, same_numbers};
ghost use Rattle.book_compiler.specs.RepresentsBook.{book_laid};
ghost use Rattle.book_compiler.specs.Onto.{FinishesOnto, Undoes, RefusesStale, RunsOnto, AnswersInto, BooksBelow};
ghost use Rattle.book_compiler.specs.Orders.{order_of, numbers};
ghost use Rattle.book_compiler.specs.Rows.{row_in, place_or_books};

use crate::driver::{check_bundle, compile_needed};
use crate::ending::Ended;
use crate::{ending, onto, order, slots, solver};
use compiler_laws::book::Book;
use memory::starts_of;
use program_check::check_program;
use words::reply;
use words::reply::{Reply, Totals};
use words::row::{Refused, Row};

// What is wanted of a bundle: to lay it on, to see what that would answer, or to lay on what a trial was answered with these totals.
#[derive(Clone, Copy)]
pub enum Order {
    Lay,
    Trial,
    Commit(Totals),
}

// Line 1's totals.
#[derive(Clone, Copy, PartialEq, Eq)]
struct LineOne {
    functions: u64,
    constants: u64,
    models: u64,
    context_locals: u64,
    entry_point: u64,
    files: u64,
    global_dependencies: u64,
}

impl LineOne {
    fn of(totals: Totals) -> Self
        ensures { numbers result ≡ line_one (saying (delivery totals)) }
    {
        LineOne {
            functions: totals.functions,
            constants: totals.constants,
            models: totals.models,
            context_locals: totals.context_locals,
            entry_point: totals.entry_point,
            files: totals.books,
            global_dependencies: totals.global_dependencies,
        }
    }
}

// Whether the program is given back where the work delivers.
fn is_trial(order: Order) -> bool
    ensures { result ≡ ends.is_trial (order_of order) }
{
    matches!(order, Order::Trial)
}

// Whether a commit's trial saw another number of bundles.
fn is_stale(order: Order, bundles: u64) -> bool
    ensures { result ≡ is_stale (order_of order) bundles }
{
    match order {
        Order::Commit(trial) => trial.bundles != bundles,
        _ => false,
    }
}

fn same_line_one(a: Totals, b: Totals) -> bool
    ensures { result ≡ same_numbers (line_one (saying (delivery a))) (line_one (saying (delivery b))) }
{
    LineOne::of(a) == LineOne::of(b)
}

// Whether a commit's trial was answered other totals than the work came to.
fn differs(order: Order, totals: Totals) -> bool
    ensures { result ≡ ends.differs (order_of order) totals }
{
    match order {
        Order::Commit(trial) => !same_line_one(trial, totals),
        _ => false,
    }
}

// The counts of a program that stands, before a bundle.
fn begun_onto(standing: Totals, strict: bool) -> Book
    ensures { result ≡ begun_onto strict standing }
{
    Book {
        full: 0,
        code: standing.code as usize,
        constants: standing.constants as usize,
        functions: standing.functions as usize,
        models: standing.models as usize,
        properties: standing.properties as usize,
        methods: standing.methods as usize,
        locals: standing.context_locals as usize,
        publics: standing.public_names as usize,
        errors: 0,
        file: 0,
        first_local: 0,
        first_public: 0,
        entry_point: standing.entry_point,
        standing_methods: standing.methods as usize,
        strict,
    }
}

// A refusal returns the totals lent.
fn refused_with(standing: Totals, refused: Refused) -> Reply
    ensures { result ≡ refusal_with standing (row_number refused.row) refused.place }
{
    Reply {
        number: refused.row.number(),
        place: refused.place as u64,
        totals: standing,
    }
}

// The row of a mark: a full area, or an include with a name that is not public.
fn mark_refused(standing: Totals, full: u64) -> Reply
    ensures { result ≡ mark_refusal_with standing full }
{
    if full < reply::FIRST_NOT_PUBLIC {
        return refused_with(standing, Row::AreaFull.at(full as usize));
    }
    refused_with(
        standing,
        Row::NameNotPublic.at((full - reply::FIRST_NOT_PUBLIC) as usize),
    )
}

// The program as it stood, and no errors.
fn undo(standing: Totals, starts: &[usize; 15], memory: &mut [u64])
    ensures { Undoes standing starts.now memory.old memory.new }
{
    onto::give_back(standing, starts, memory);
    onto::clear_errors(starts, memory);
}

// The end of a call on a program: a full area or a row gives the program back as it stood, with the errors of rows 7 and 8; so do a trial, and a commit whose
// trial was answered other totals. Else the notes and the slots go, and the reply says what stands in the areas.
fn finish_onto(
    ended: Ended,
    order: Order,
    standing: Totals,
    starts: &[usize; 15],
    memory: &mut [u64],
) -> Reply
    ensures { FinishesOnto (order_of order) standing (book_laid ended.book starts.now memory.old) (row_in ended.outcome)
        (place_or_books ended.outcome) memory.new result }
{
    let full = ended.book.full;
    if full != 0 {
        undo(standing, starts, memory);
        return mark_refused(standing, full);
    }
    let books = match ended.outcome {
        Ok(books) => books,
        Err(refused) => {
            onto::give_back(standing, starts, memory);
            return refused_with(standing, refused);
        }
    };
    let book = ended.book;
    let marked = ending::count_global_dependencies(book.constants, starts, memory);
    let tried = ending::delivered(book, books, marked, standing.bundles);
    if differs(order, tried.totals) {
        undo(standing, starts, memory);
        return refused_with(standing, Row::TotalsDiffer.at(0));
    }
    if is_trial(order) {
        undo(standing, starts, memory);
        return tried;
    }
    ending::settle(book.constants, book.standing_methods, starts, memory);
    ending::delivered(book, books, marked, standing.bundles.wrapping_add(1))
}

// The work with four empty sets: that of the books that stand, which becomes that of the books compiled, and three for the books needed.
fn run_onto_in(
    tree: &[u64],
    strict: bool,
    order: Order,
    standing: Totals,
    stands: &mut [u64],
    chosen: &mut [u64],
    present: &mut [u64],
    next: &mut [u64],
    starts: &[usize; 15],
    memory: &mut [u64],
) -> Reply
    requires { Fresh tree.now chosen.old × (present.old ≡ chosen.old) × (next.old ≡ chosen.old) × (stands.old ≡ chosen.old)
        × BooksBelow (length stands.old * 64) standing starts.now memory.old }
    ensures { RunsOnto (order_of order) strict tree.now standing starts.now memory.old memory.new result }
{
    let stand = standing.books as usize;
    order::add_standing(stand, starts, memory, stands);
    onto::make_ready(standing, starts, memory);
    if let Err(refused) = check_bundle(tree, stands, chosen, present, next) {
        onto::give_back(standing, starts, memory);
        return refused_with(standing, refused);
    }
    let mut book = begun_onto(standing, strict);
    let outcome = compile_needed(tree, chosen, stand, &mut book, starts, memory, stands);
    finish_onto(Ended { book, outcome }, order, standing, starts, memory)
}

// The same with sets of N words, in which every file number of the bundle and of the books that stand has a bit.
fn run_onto_with<const N: usize>(
    tree: &[u64],
    strict: bool,
    order: Order,
    standing: Totals,
    starts: &[usize; 15],
    memory: &mut [u64],
) -> Reply
    requires short { N ≤ 16384 }
    requires fresh { Fresh tree.now (replicate N 0) }
    requires below { BooksBelow (N * 64) standing starts.now memory.old }
    ensures { RunsOnto (order_of order) strict tree.now standing starts.now memory.old memory.new result }
{
    run_onto_in(
        tree,
        strict,
        order,
        standing,
        &mut [0; N],
        &mut [0; N],
        &mut [0; N],
        &mut [0; N],
        starts,
        memory,
    )
}

// The work. Its sets of file numbers are short where the bundle's numbers and those of the books that stand are small: 2 KiB in all, else 512 KiB.
fn run_onto(
    tree: &[u64],
    strict: bool,
    order: Order,
    standing: Totals,
    starts: &[usize; 15],
    memory: &mut [u64],
) -> Reply
    ensures { RunsOnto (order_of order) strict tree.now standing starts.now memory.old memory.new result }
{
    let end = tree.len() / 4;
    let stand = standing.books as usize;
    if solver::narrow(tree, end) {
        if order::narrow_standing(stand, starts, memory) {
            return run_onto_with::<{ solver::NARROW_WORDS }>(
                tree, strict, order, standing, starts, memory,
            );
        }
    }
    run_onto_with::<{ solver::SET_WORDS }>(tree, strict, order, standing, starts, memory)
}

// Row 12: area 11 and the slots are zeros, as after any refusal by the work.
fn refuse_stale(standing: Totals, starts: &[usize; 15], memory: &mut [u64]) -> Reply
    ensures { RefusesStale standing starts.now memory.old memory.new result }
{
    onto::clear_errors(starts, memory);
    slots::clear_slots(starts, memory);
    refused_with(standing, Row::StaleTrial.at(standing.bundles as usize))
}

// A call on a program that stands: the program check first of all, then whether a commit's trial is stale, then the work.
pub(crate) fn answer_onto(
    tree: &[u64],
    strict: bool,
    order: Order,
    standing: Totals,
    lengths: [usize; 12],
    memory: &mut [u64],
) -> Reply
    ensures { AnswersInto (order_of order) strict tree.now standing lengths memory.old memory.new result }
{
    if let Err(refused) = check_program(memory, lengths, standing) {
        return refused_with(standing, refused);
    }
    let starts = starts_of(lengths, memory.len());
    if is_stale(order, standing.bundles) {
        return refuse_stale(standing, &starts, memory);
    }
    run_onto(tree, strict, order, standing, &starts, memory)
}
