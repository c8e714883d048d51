// The static library (docs/FORMAT.md, 'The static library'): what `clover_back_end` has, under symbols of the C ABI and with the same promises. A slice is a
// pointer and a length.
#![tactic(auto)]

ghost use Rattle.book_compiler.specs.Promise.{CompilesInto, LaysOnInto, TriesInto, CommitsInto};
ghost use Rattle.definition.specs.Promise.{lent_counted};
ghost use Rattle.definition.specs.Trial.{counted_fault};
ghost use Rattle.program_check.specs.Answer.{answer_of};
ghost use Rattle.program_check.specs.OneMemory.{areas_in};
ghost use Rattle.std.specs.Prelude.{◌≡◌, length};
ghost use Rattle.tree.specs.Check.{shape_of};
ghost use Rattle.column_files.specs.Convert.{columns_to_records, records_to_columns, Converts};
ghost use Rattle.constant_tables.specs.Convert.{table_to_records, records_to_table, Tables};
ghost use Rattle.error_lines.specs.Words.{in_words};
ghost use Rattle.clover_back_end.specs.Refusals.{refusal_of};
ghost use Rattle.clover_back_end.specs.Lengths.{lengths_of};
ghost use Rattle.clover_back_end.specs.Modes.{is_strict};
ghost use Rattle.clover_back_end.specs.Versions.{this_version};

use clover_back_end::{Lengths, Refusal, Version};
use column_files::Converted;
use constant_tables::Tabled;
use words::reply::{Reply, Totals};

// The version of the library and the number of its layout.
#[unsafe(no_mangle)]
pub extern "C" fn clover_version() -> Version
    ensures { result ≡ this_version }
{
    clover_back_end::clover_version()
}

// Rows 2 to 4 on any words.
#[unsafe(no_mangle)]
pub extern "C" fn clover_check(tree: &[u64]) -> Refusal
    ensures { result ≡ refusal_of (shape_of tree.now) }
{
    clover_back_end::clover_check(tree)
}

// The program check (2026-01) on any memory, lengths and totals: row 3 with 1,048,576 plus the first area that fails, or 0 and 0.
#[unsafe(no_mangle)]
pub extern "C" fn clover_check_program(memory: &[u64], lengths: Lengths, totals: Totals) -> Refusal
    ensures { result ≡ refusal_of (answer_of (counted_fault (lent_counted (areas_in (lengths_of lengths) memory.now) totals))) }
{
    clover_back_end::clover_check_program(memory, lengths, totals)
}

// A column file to records.
#[unsafe(no_mangle)]
pub extern "C" fn clover_columns_to_records(file: &[u8], out: &mut [u64]) -> Converted
    ensures { Converts (columns_to_records file.now (length out.old)) out.new result }
{
    clover_back_end::clover_columns_to_records(file, out)
}

// Records to a column file.
#[unsafe(no_mangle)]
pub extern "C" fn clover_records_to_columns(tree: &[u64], out: &mut [u8]) -> Converted
    ensures { Converts (records_to_columns tree.now (length out.old)) out.new result }
{
    clover_back_end::clover_records_to_columns(tree, out)
}

// A constant table and a file number to the records of its document.
#[unsafe(no_mangle)]
pub extern "C" fn clover_table_to_records(table: &[u8], file: u64, out: &mut [u64]) -> Converted
    ensures { Converts (table_to_records table.now file (length out.old)) out.new result }
{
    clover_back_end::clover_table_to_records(table, file, out)
}

// The records of a table's document to the table.
#[unsafe(no_mangle)]
pub extern "C" fn clover_records_to_table(tree: &[u64], out: &mut [u8]) -> Tabled
    ensures { Tables (records_to_table tree.now (length out.old)) out.new result }
{
    clover_back_end::clover_records_to_table(tree, out)
}

// The errors of area 11 in words: a line each, with the caller's file number and the texts of a lent table.
#[unsafe(no_mangle)]
pub extern "C" fn clover_errors_in_words(
    errors: &[u64],
    file: u64,
    table: &[u64],
    bytes: &[u8],
    out: &mut [u8],
) -> Converted
    ensures { Converts (in_words errors.now file table.now bytes.now (length out.old)) out.new result }
{
    clover_back_end::clover_errors_in_words(errors, file, table, bytes, out)
}

// The compile call over one memory; a mode of 0 is the present one, anything else is strict (2026-07).
#[unsafe(no_mangle)]
pub extern "C" fn clover_compile(
    tree: &[u64],
    mode: u64,
    lengths: Lengths,
    memory: &mut [u64],
) -> Reply
    ensures { CompilesInto (is_strict mode) tree.now (lengths_of lengths) memory.old memory.new result }
{
    clover_back_end::clover_compile(tree, mode, lengths, memory)
}

// Laying a bundle onto a program that stands in a memory (2026-01), on any words, memory, lengths and totals: the program check first of all; a refused bundle
// leaves the program as it stood.
#[unsafe(no_mangle)]
pub extern "C" fn clover_lay_on(
    tree: &[u64],
    mode: u64,
    standing: Totals,
    lengths: Lengths,
    memory: &mut [u64],
) -> Reply
    ensures { LaysOnInto (is_strict mode) tree.now standing (lengths_of lengths) memory.old memory.new result }
{
    clover_back_end::clover_lay_on(tree, mode, standing, lengths, memory)
}

// What laying a bundle on would answer (2026-08): the program stays as it stands.
#[unsafe(no_mangle)]
pub extern "C" fn clover_trial(
    tree: &[u64],
    mode: u64,
    standing: Totals,
    lengths: Lengths,
    memory: &mut [u64],
) -> Reply
    ensures { TriesInto (is_strict mode) tree.now standing (lengths_of lengths) memory.old memory.new result }
{
    clover_back_end::clover_trial(tree, mode, standing, lengths, memory)
}

// Laying on what a trial was answered these totals for (2026-08): refused where the program has another number of bundles since, or where the totals of the
// listing's line 1 are others.
#[unsafe(no_mangle)]
pub extern "C" fn clover_commit(
    tree: &[u64],
    mode: u64,
    standing: Totals,
    tried: Totals,
    lengths: Lengths,
    memory: &mut [u64],
) -> Reply
    ensures { CommitsInto tried (is_strict mode) tree.now standing (lengths_of lengths) memory.old memory.new result }
{
    clover_back_end::clover_commit(tree, mode, standing, tried, lengths, memory)
}
