// 01's program `listing`: a column file on standard input, the listing of what it compiles to on standard output. The sizes of its buffers stand in
// docs/FORMAT.md; a longer input answers 9, place 0, and so does a listing that is too long or has a number too wide. It compiles in the present mode.
#![tactic(auto)]

ghost use Rattle.std.specs.Prelude.{◌≤◌, length};

use book_compiler::compile;
use column_files::{Converted, columns_to_records};
use column_lines::line::LINE_LENGTH;
use listings::{LentAreas, write};
use reading::read_full;
use std::io;
use words::reply::{AREA_FULL, Reply};

// Room for a longer input than there may be, so that it is seen.
const INPUT: usize = 65536;

const MOST_RECORDS: usize = 1260;

const MOST_BYTES: usize = MOST_RECORDS * LINE_LENGTH;

const MOST_WORDS: usize = MOST_RECORDS * 4;

const MOST_TEXT: usize = 65490;

const LISTING_LINE: usize = 74;

// The words of the areas, of 1,000 entries each, which stand one after the other in one memory.
const LENGTHS: [usize; 12] = [
    2000, 3000, 8000, 2000, 2000, 3000, 4000, 3000, 2000, 1000, 4000, 1000,
];

const MEMORY: usize = 35000;

// The line of a refusal without errors.
fn refuse(rt: &impl Print, number: u64, place: u64) -> io::Result<()> {
    let none = [0u64; 1];
    let empty = &none[0..0];
    let reply = Reply::refused(number, place);
    let mut line = [0u8; LISTING_LINE];
    let lent = LentAreas {
        code: empty,
        constants: empty,
        functions: empty,
        models: empty,
        properties: empty,
        methods: empty,
        locals: empty,
        errors: empty,
        books: empty,
    };
    let answer = write(reply, lent, &mut line);
    if answer.total == LISTING_LINE {
        rt.write_all(&line)?;
    }
    Ok(())
}

// The listing of a reply and the areas in a memory.
fn write_areas(reply: Reply, memory: &[u64], text: &mut [u8]) -> Converted
    requires { 35000 ≤ length memory.now }
{
    let (code, rest) = memory.split_at(LENGTHS[0]);
    let (constants, rest) = rest.split_at(LENGTHS[1]);
    let (functions, rest) = rest.split_at(LENGTHS[2]);
    let (models, rest) = rest.split_at(LENGTHS[3]);
    let (properties, rest) = rest.split_at(LENGTHS[4]);
    let (methods, rest) = rest.split_at(LENGTHS[5]);
    let (locals, rest) = rest.split_at(LENGTHS[6]);
    // Nothing is shown of public names, scope names and breaks.
    let (_, rest) = rest.split_at(LENGTHS[7] + LENGTHS[8] + LENGTHS[9]);
    let (errors, rest) = rest.split_at(LENGTHS[10]);
    let (books, _) = rest.split_at(LENGTHS[11]);
    let lent = LentAreas {
        code,
        constants,
        functions,
        models,
        properties,
        methods,
        locals,
        errors,
        books,
    };
    write(reply, lent, text)
}

fn show(rt: &impl Print, reply: Reply, memory: &[u64]) -> io::Result<()>
    requires { 35000 ≤ length memory.now }
{
    let mut text = [0u8; MOST_TEXT];
    let answer = write_areas(reply, memory, &mut text);
    let total = answer.total;
    if answer.number == 0 {
        if total <= MOST_TEXT {
            return rt.write_all(&text[0..total]);
        }
    }
    refuse(rt, AREA_FULL, 0)
}

fn compile_and_show(rt: &impl Print, tree: &[u64]) -> io::Result<()> {
    let mut memory = [0; MEMORY];
    let reply = compile(tree, false, LENGTHS, &mut memory);
    show(rt, reply, &memory)
}

fn list(rt: &impl Print, file: &[u8]) -> io::Result<()> {
    if file.len() > MOST_BYTES {
        return refuse(rt, AREA_FULL, 0);
    }
    let mut words = [0u64; MOST_WORDS];
    let answer = columns_to_records(file, &mut words);
    if answer.number != 0 {
        return refuse(rt, answer.number, answer.place as u64);
    }
    let total = answer.total;
    if total <= MOST_RECORDS {
        let end = total * 4;
        compile_and_show(rt, &words[0..end])?;
    }
    Ok(())
}

fn main(rt: HostRuntime) -> io::Result<()> {
    let mut text = [0u8; INPUT];
    let n = read_full(&mut rt.stdin(), &mut text)?;
    list(&rt, &text[..n])
}
