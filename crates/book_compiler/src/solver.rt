// `backend/dependency_solver.rs`: the books that a bundle needs and the next that is ready. Sets of file numbers are words of bits. `standing` is that of the
// books that stand before the bundle, which are passed over (2026-01).
ghost use Rattle.std.specs.Prelude.{◌≡◌, ◌<◌, ◌≤◌, ◌-◌, max, true, false, nat_lt, IfSome, length, if◌then◌else◌};
ghost use Rattle.compiler_laws.specs.FileSets.{bit_of, Added, AddedAbsent, NextIn, NoneBetween, Zeros, set_size, narrow_size};
ghost use Rattle.compiler_laws.specs.SolverSteps.{FindsTwice, Includes, Reaches, Needs, Misses, Lowers, Resumes, FindsNext, TakesBooks};
ghost use Rattle.compiler_laws.specs.SolverSteps.{FirstUncompiled, FindsReady, Brings, NarrowIncludes, Narrows, AddsNumbers};
ghost use Rattle.std.specs.List.{list_all};
ghost use Rattle.book_compiler.specs.Rows.{or_count};
ghost use Rattle.words.specs.Record.{most_records};

use crate::subtree::{Subtrees, skip};
use building::taking;
use words::record::field;
use words::{areas, record};

// Numbers in sets are below this: every text number is.
const SET_SIZE: u64 = 1048576;

pub(crate) const SET_WORDS: usize = 16384;

// A set of so many words has a bit for every number below NARROW.
pub(crate) const NARROW_WORDS: usize = 64;

const NARROW: u64 = 4096;

// A book that waits in area 12 is its file number times this, how many records behind its document's were read times the next, and the place of its document.
pub(crate) const BOOK_UNIT: u64 = 1099511627776;

pub(crate) const PLACE_UNIT: u64 = 1048576;

pub(crate) fn has(set: &[u64], n: u64) -> bool
    ensures { result ≡ bit_of set.now n }
{
    let at = (n / 64) as usize;
    at < set.len() && (set[at] >> (n % 64)) % 2 == 1
}

// Whether it is new.
pub(crate) fn add(set: &mut [u64], n: u64) -> bool
    ensures { Added set.old n set.new result }
{
    if has(set, n) {
        return false;
    }
    let at = (n / 64) as usize;
    if at < set.len() {
        set[at] = set[at] | (1 << (n % 64));
    }
    true
}

// The same of a number that does not stand; one that does is not new.
fn add_absent(standing: &[u64], set: &mut [u64], n: u64) -> bool
    ensures { AddedAbsent standing.now set.old n set.new result }
{
    !has(standing, n) && add(set, n)
}

// The first from `from` on that is in the set; runs of words without a bit are passed over at once.
fn next_in(set: &[u64], from: u64) -> Option<u64>
    requires { from ≤ set_size }
    ensures finds { NextIn set.now from (or_count set_size result) }
    ensures inside { IfSome result (λ n. n < set_size) }
{
    let mut n = from;
    // A `for` is no plainer: a step goes over as many numbers as have no bit.
    while n < SET_SIZE {
        if has(set, n) {
            return Some(n);
        }
        n = after(set, n);
    }
    None
}

// The numbers in a set, ascending, from `from` on.
#[derive(Clone, Copy)]
pub struct Members<'a> {
    pub set: &'a [u64],
    pub from: u64,
}

impl Iterator for Members<'_> {
    ghost use Rattle.std.specs.Iterator.{at_most};
    ghost use Rattle.book_compiler.specs.SetMembers.{StepsTo};

    type Item = u64;

    ghost next_gives = { λ s found s'. StepsTo s.set.now s.from found s'.set.now s'.from };

    ghost remaining = { λ s. at_most (set_size - s.from) };

    fn next(&mut self) -> Option<u64> {
        if SET_SIZE <= self.from {
            return None;
        }
        let n = next_in(self.set, self.from)?;
        self.from = n + 1;
        Some(n)
    }
}

// The next number, or where the number's word has no bit the first of the next word that has one, or SET_SIZE where no word has.
fn after(set: &[u64], n: u64) -> u64
    requires { n < set_size }
    ensures { NoneBetween set.now n result }
{
    let at = (n / 64) as usize;
    let end = zeros_end(set, at);
    if set.len() <= end {
        return SET_SIZE;
    }
    if end <= at {
        return n + 1;
    }
    if end < SET_WORDS {
        return end as u64 * 64;
    }
    SET_SIZE
}

// The end of the run of zero words from a place on. Most words of a set are 0: the loop has nothing but the test of one.
fn zeros_end(set: &[u64], at: usize) -> usize
    ensures { Zeros set.now at result }
{
    for i in at..set.len() {
        if set[i] != 0 {
            return i;
        }
    }
    set.len()
}

// Whether the includes are all below NARROW.
fn narrow_includes(tree: &[u64], at: usize, end: usize) -> bool
    ensures { NarrowIncludes tree.now at end result }
{
    for definition in (Subtrees { tree, at, end }) {
        let kind = field(tree, definition.at, record::KIND);
        if kind == record::INCLUDE_DEFINITION {
            let file = field(tree, definition.at, record::VALUE);
            if NARROW <= file {
                return false;
            }
        }
    }
    true
}

// Whether every file number, and every number that is included, is below NARROW.
pub(crate) fn narrow(tree: &[u64], end: usize) -> bool
    ensures { Narrows tree.now 0 end result }
{
    for document in (Subtrees { tree, at: 0, end }) {
        let file = field(tree, document.at, record::VALUE);
        if NARROW <= file {
            return false;
        }
        if !narrow_includes(tree, document.at + 1, document.end) {
            return false;
        }
    }
    true
}

// Whether the file numbers of the books that stand are all below NARROW.
pub(crate) fn narrow_books(books: &[u64]) -> bool
    ensures { result ≡ list_all (λ n. nat_lt n narrow_size) books.now }
{
    books.iter().all(|book| *book < NARROW)
}

// The same numbers into a set.
pub(crate) fn add_books(books: &[u64], set: &mut [u64])
    ensures { AddsNumbers books.now set.old set.new }
{
    for book in books {
        add(set, *book);
    }
}

// Row 5: the first document whose file number an earlier one has; `present` gets the file numbers.
pub(crate) fn twice(tree: &[u64], end: usize, present: &mut [u64]) -> Option<u64>
    ensures { FindsTwice tree.now end present.old result present.new }
{
    for document in (Subtrees { tree, at: 0, end }) {
        let file = field(tree, document.at, record::VALUE);
        if !add(present, file) {
            return Some(document.at as u64);
        }
    }
    None
}

// The includes, wherever they are written, into the set, but for those that stand. Whether there was a new one, or `any`.
fn add_includes(
    tree: &[u64],
    at: usize,
    end: usize,
    standing: &[u64],
    any: bool,
    set: &mut [u64],
) -> bool
    ensures { Includes tree.now at end standing.now any set.old set.new result }
{
    let mut grew = any;
    for definition in (Subtrees { tree, at, end }) {
        let kind = field(tree, definition.at, record::KIND);
        if kind == record::INCLUDE_DEFINITION {
            let file = field(tree, definition.at, record::VALUE);
            grew |= add_absent(standing, set, file);
        }
    }
    grew
}

fn unread(read: &[u64], set: &[u64], file: u64) -> bool
    ensures { result ≡ (if bit_of read.now file then false else bit_of set.now file) }
{
    !has(read, file) && has(set, file)
}

// One reading of the documents: the includes of those in the set that were not read before, into the next. Whether there was a new one.
fn reach(
    tree: &[u64],
    end: usize,
    standing: &[u64],
    read: &[u64],
    set: &[u64],
    next: &mut [u64],
) -> bool
    ensures { Reaches tree.now 0 end standing.now read.now set.now false next.old
        next.new result }
{
    let mut grew = false;
    for document in (Subtrees { tree, at: 0, end }) {
        let file = field(tree, document.at, record::VALUE);
        if unread(read, set, file) {
            grew = add_includes(tree, document.at + 1, document.end, standing, grew, next);
        }
    }
    grew
}

// No `copy_from_slice`: the static library would need `memmove` for a length that is known when it runs.
fn copy(from: &[u64], to: &mut [u64])
    requires { length from.now ≡ length to.old }
    ensures { to.new ≡ from.now }
{
    for i in 0..from.len() {
        to[i] = from[i];
    }
}

// The books needed, from three empty sets: as many rounds as there are documents, or until one finds nothing new. A document is read in one round, the next
// after it was found.
pub(crate) fn needed(
    tree: &[u64],
    end: usize,
    standing: &[u64],
    read: &mut [u64],
    set: &mut [u64],
    next: &mut [u64],
)
    requires { (length read.old ≡ length set.old) × (next.old ≡ set.old) }
    ensures { Needs tree.now end standing.now read.old set.old set.new }
{
    let root = field(tree, 0, record::VALUE);
    add_absent(standing, set, root);
    add_absent(standing, next, root);
    for _document in (Subtrees { tree, at: 0, end }) {
        if !reach(tree, end, standing, read, set, next) {
            return;
        }
        copy(set, read);
        copy(next, set);
    }
}

// Row 6: the smallest file number that is needed and absent.
pub(crate) fn missing(needed: &[u64], present: &[u64]) -> Option<u64>
    ensures { Misses needed.now present.now result }
{
    let members = Members {
        set: needed,
        from: 0,
    };
    for file in members {
        if !has(present, file) {
            return Some(file);
        }
    }
    None
}

// Where a document was found: those ahead of it have no number from its own up to `above`, so the next one's search goes on from there.
#[derive(Clone, Copy)]
pub struct Place {
    pub at: usize,
    pub above: u64,
}

// The bound where a document of the number `there` is passed over.
fn lower(above: u64, file: u64, there: u64) -> u64
    ensures { Lowers above file there result }
{
    if there <= file {
        return above;
    }
    if above <= there {
        return above;
    }
    there
}

fn resumed(last: Place, file: u64) -> Place
    requires { file < set_size }
    ensures { Resumes file last.at last.above result.at result.above }
{
    if file < last.above {
        return last;
    }
    Place {
        at: 0,
        above: SET_SIZE,
    }
}

// Documents that come in the order of their numbers are passed over once, and not once for each number.
fn find_document(tree: &[u64], end: usize, last: Place, file: u64) -> Place
    requires { file < set_size }
    ensures { FindsNext tree.now end file last.at last.above result.at result.above }
{
    let start = resumed(last, file);
    let mut above = start.above;
    let documents = Subtrees {
        tree,
        at: start.at,
        end,
    };
    for document in documents {
        let there = field(tree, document.at, record::VALUE);
        if there == file {
            return Place {
                at: document.at,
                above,
            };
        }
        above = lower(above, file, there);
    }
    Place { at: end, above }
}

// The books needed, ascending, each an entry of area 12, behind those of `stand` books that stand. Once the mark is set nothing more is taken, so nothing more
// is looked for.
pub(crate) fn take_books(
    tree: &[u64],
    end: usize,
    needed: &[u64],
    full: u64,
    stand: usize,
    books: &mut [u64],
) -> taking::Taken
    requires { end ≤ most_records }
    ensures { TakesBooks tree.now end needed.now full stand books.old result books.new }
{
    let mut t = taking::Taken { full, count: stand };
    if full != 0 {
        return t;
    }
    let mut place = Place {
        at: 0,
        above: SET_SIZE,
    };
    let members = Members {
        set: needed,
        from: 0,
    };
    for file in members {
        place = find_document(tree, end, place, file);
        taking::take(
            books,
            areas::BOOKS,
            &mut t.full,
            &mut t.count,
            [file * BOOK_UNIT + place.at as u64],
        );
        if t.full != 0 {
            return t;
        }
    }
    t
}

// The place of the first include from a place on whose book is not compiled, if there is one.
fn first_uncompiled(tree: &[u64], at: usize, end: usize, compiled: &[u64]) -> Option<usize>
    ensures finds { FirstUncompiled tree.now at end compiled.now (or_count (max at end) result) }
    ensures inside { IfSome result (λ j. j < end) }
{
    for definition in (Subtrees { tree, at, end }) {
        let kind = field(tree, definition.at, record::KIND);
        if kind == record::INCLUDE_DEFINITION {
            let file = field(tree, definition.at, record::VALUE);
            if !has(compiled, file) {
                return Some(definition.at);
            }
        }
    }
    None
}

// The first of the waiting books, from entry `done` on, whose includes are all compiled, if there is one. A book that is not ready is read up to
// the include that it waits for, and from there on the next time: what is compiled stays so.
pub(crate) fn next_ready(
    tree: &[u64],
    end: usize,
    done: usize,
    count: usize,
    compiled: &[u64],
    books: &mut [u64],
) -> Option<usize>
    ensures finds { FindsReady tree.now end done count compiled.now books.old (or_count count result) books.new }
    ensures inside { IfSome result (λ k. k < count) }
{
    for k in done..count {
        let entry = areas::entry_word(books, areas::BOOK_WORDS, k, 0);
        let at = (entry % PLACE_UNIT) as usize;
        let from = at + 1 + (entry / PLACE_UNIT % PLACE_UNIT) as usize;
        let last = skip(tree, at, end);
        let Some(stop) = first_uncompiled(tree, from, last, compiled) else {
            return Some(k);
        };
        let read = (stop - at - 1) as u64 % PLACE_UNIT;
        let word = entry / BOOK_UNIT * BOOK_UNIT + read * PLACE_UNIT + entry % PLACE_UNIT;
        areas::write_word(books, areas::BOOK_WORDS, k, 0, word);
    }
    None
}

// The file number of the book at entry k goes to the place of the first waiting one, those between one further.
pub(crate) fn move_to_front(books: &mut [u64], done: usize, k: usize, file: u64)
    ensures { Brings books.old done k file books.new }
{
    for i in (done..k).rev() {
        let before = areas::entry_word(books, areas::BOOK_WORDS, i, 0);
        areas::write_word(books, areas::BOOK_WORDS, i + 1, 0, before);
    }
    areas::write_word(books, areas::BOOK_WORDS, done, 0, file);
}
