// What a Rust or C program calls (docs/FORMAT.md, 'The static library'): each function is another crate's routine under a name of its own.
// `clover_back_end_c`, the static library, exports them, each with the same promise.
#![tactic(auto)]

ghost use Rattle.book_compiler.specs.Promise.{CompilesInto, LaysOnInto, TriesInto, CommitsInto};
ghost use Rattle.definition.specs.Promise.{lent_counted};
ghost use Rattle.definition.specs.Trial.{counted_fault};
ghost use Rattle.program_check.specs.Answer.{answer_of};
ghost use Rattle.program_check.specs.OneMemory.{areas_in};
ghost use Rattle.std.specs.Prelude.{◌≡◌, length};
ghost use Rattle.tree.specs.Check.{shape_of};
ghost use Rattle.column_files.specs.Convert.{columns_to_records, records_to_columns, Converts};
ghost use Rattle.constant_tables.specs.Convert.{table_to_records, records_to_table, Tables};
ghost use Rattle.error_lines.specs.Words.{in_words};
ghost use Rattle.clover_back_end.specs.Refusals.{refusal_of};
ghost use Rattle.clover_back_end.specs.Lengths.{lengths_of};
ghost use Rattle.clover_back_end.specs.Modes.{is_strict};
ghost use Rattle.clover_back_end.specs.Versions.{this_version};

use book_compiler::{commit, compile, lay_on, trial};
use column_files::{Converted, columns_to_records, records_to_columns};
use constant_tables::{Tabled, records_to_table, table_to_records};
use error_lines::errors_in_words;
use program_check::check_program;
use tree::check;
use words::reply::{Reply, Totals};
use words::row::Refused;

// Counts releases of the library: one more whenever an answer may be another than before.
const VERSION: u64 = 6;
// Counts forms of what goes in and out (docs/FORMAT.md, 'Version and layout').
const LAYOUT: u64 = 6;

// What the shape check and the program check answer: the number of a refusal's row and its place, or 0 and 0.
#[repr(C)]
#[derive(Clone, Copy)]
pub struct Refusal {
    pub number: u64,
    pub place: usize,
}

// How many words of one memory each area has; the areas follow each other by number.
#[repr(C)]
#[derive(Clone, Copy)]
pub struct Lengths {
    pub code: usize,
    pub constants: usize,
    pub functions: usize,
    pub models: usize,
    pub properties: usize,
    pub methods: usize,
    pub context_locals: usize,
    pub public_names: usize,
    pub scope_names: usize,
    pub breaks: usize,
    pub errors: usize,
    pub books: usize,
}

// Which library this is. A caller compares the layout with the one that it was written for.
#[repr(C)]
#[derive(Clone, Copy)]
pub struct Version {
    pub version: u64,
    pub layout: u64,
}

// The version of the library and the number of its layout.
#[tactic(auto, unfolding(crate::specs::Versions::this_version))]
pub fn clover_version() -> Version
    ensures { result ≡ this_version }
{
    Version {
        version: VERSION,
        layout: LAYOUT,
    }
}

#[tactic(auto, unfolding(crate::specs::Refusals::refusal_of))]
fn refusal_of(shape: Result<(), Refused>) -> Refusal
    ensures { result ≡ refusal_of shape }
{
    match shape {
        Err(refused) => Refusal {
            number: refused.row.number(),
            place: refused.place,
        },
        Ok(()) => Refusal {
            number: 0,
            place: 0,
        },
    }
}

// The lengths by the areas' numbers.
#[tactic(auto, unfolding(crate::specs::Lengths::lengths_of))]
fn by_number(lengths: Lengths) -> [usize; 12]
    ensures { result ≡ lengths_of lengths }
{
    [
        lengths.code,
        lengths.constants,
        lengths.functions,
        lengths.models,
        lengths.properties,
        lengths.methods,
        lengths.context_locals,
        lengths.public_names,
        lengths.scope_names,
        lengths.breaks,
        lengths.errors,
        lengths.books,
    ]
}

// Rows 2 to 4 on any words.
pub fn clover_check(tree: &[u64]) -> Refusal
    ensures { result ≡ refusal_of (shape_of tree.now) }
{
    refusal_of(check(tree))
}

// The program check (2026-01) on any memory, lengths and totals: row 3 with 1,048,576 plus the first area that fails, or 0 and 0.
pub fn clover_check_program(memory: &[u64], lengths: Lengths, totals: Totals) -> Refusal
    ensures { result ≡ refusal_of (answer_of (counted_fault (lent_counted (areas_in (lengths_of lengths) memory.now) totals))) }
{
    refusal_of(check_program(memory, by_number(lengths), totals))
}

// A column file to records.
pub fn clover_columns_to_records(file: &[u8], out: &mut [u64]) -> Converted
    ensures { Converts (columns_to_records file.now (length out.old)) out.new result }
{
    columns_to_records(file, out)
}

// Records to a column file.
pub fn clover_records_to_columns(tree: &[u64], out: &mut [u8]) -> Converted
    ensures { Converts (records_to_columns tree.now (length out.old)) out.new result }
{
    records_to_columns(tree, out)
}

// A constant table and a file number to the records of its document.
pub fn clover_table_to_records(table: &[u8], file: u64, out: &mut [u64]) -> Converted
    ensures { Converts (table_to_records table.now file (length out.old)) out.new result }
{
    table_to_records(table, file, out)
}

// The records of a table's document to the table.
pub fn clover_records_to_table(tree: &[u64], out: &mut [u8]) -> Tabled
    ensures { Tables (records_to_table tree.now (length out.old)) out.new result }
{
    records_to_table(tree, out)
}

// The errors of area 11 in words: a line each, with the caller's file number and the texts of a lent table.
pub fn clover_errors_in_words(
    errors: &[u64],
    file: u64,
    table: &[u64],
    bytes: &[u8],
    out: &mut [u8],
) -> Converted
    ensures { Converts (in_words errors.now file table.now bytes.now (length out.old)) out.new result }
{
    errors_in_words(errors, file, table, bytes, out)
}

// The compile call over one memory; a mode of 0 is the present one, anything else is strict (2026-07).
pub fn clover_compile(tree: &[u64], mode: u64, lengths: Lengths, memory: &mut [u64]) -> Reply
    ensures { CompilesInto (is_strict mode) tree.now (lengths_of lengths) memory.old memory.new result }
{
    compile(tree, mode != 0, by_number(lengths), memory)
}

// Laying a bundle onto a program that stands in a memory (2026-01), on any words, memory, lengths and totals: the program check first of all; a refused bundle
// leaves the program as it stood.
pub fn clover_lay_on(
    tree: &[u64],
    mode: u64,
    standing: Totals,
    lengths: Lengths,
    memory: &mut [u64],
) -> Reply
    ensures { LaysOnInto (is_strict mode) tree.now standing (lengths_of lengths) memory.old memory.new result }
{
    lay_on(tree, mode != 0, standing, by_number(lengths), memory)
}

// What laying a bundle on would answer (2026-08): the program stays as it stands.
pub fn clover_trial(
    tree: &[u64],
    mode: u64,
    standing: Totals,
    lengths: Lengths,
    memory: &mut [u64],
) -> Reply
    ensures { TriesInto (is_strict mode) tree.now standing (lengths_of lengths) memory.old memory.new result }
{
    trial(tree, mode != 0, standing, by_number(lengths), memory)
}

// Laying on what a trial was answered these totals for (2026-08): refused where the program has another number of bundles since, or where the totals of the
// listing's line 1 are others.
pub fn clover_commit(
    tree: &[u64],
    mode: u64,
    standing: Totals,
    tried: Totals,
    lengths: Lengths,
    memory: &mut [u64],
) -> Reply
    ensures { CommitsInto tried (is_strict mode) tree.now standing (lengths_of lengths) memory.old memory.new result }
{
    commit(tree, mode != 0, standing, tried, by_number(lengths), memory)
}
