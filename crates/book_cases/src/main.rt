// The compile call, laying on, trial and commit, on the oracle's stored cases, `oracle/sample/compile-N.txt`, `strict-N.txt`, `onto-N.txt`, `trial-N.txt` and
// `commit-N.txt`, which `tools/book-cases` puts into `stdin`. A case is a line with the bytes of its name and of its numbers, then both. To the compile call a
// memory of stale words is lent; to the others one with the areas that are stored, zeros after a list's end, and stale words behind the last area. The reply
// and every word of the memory must be as stored: the areas one after the other, zeros after a list's end and behind the last area, or there the stale words
// where the program that stands is refused. A line with the reply is written for each case, below it one for each part that differs, and the counts at the
// end.
#![tactic(auto)]

ghost use Rattle.std.specs.Prelude.{◌≤◌};

use book_compiler::{commit, compile, lay_on, trial};
use case_numbers::{parse, totals_of};
use reading::read_full;
use std::io;
use std::io::Read;
use words::reply::{BAD_SHAPE, Reply};

// The numbers of the calls, one more in strict mode; a lesser one is the compile call. `tools/tests/test_book_cases.py` reads these, and the sizes below.
const LAY_ON: u64 = 2;

const TRIAL: u64 = 4;

const COMMIT: u64 = 6;

const MOST_CASES: u64 = 10000;

const MOST_NAME: usize = 256;

const MOST_TEXT: usize = 8192;

const MOST_MEMORY: usize = 6144;

const MOST_NUMBERS: usize = 1024;

// What memory holds that nothing was put into.
const STALE: u64 = 7777777;

// Row 3 has a place past this one where it is the program that stands.
const PROGRAM_PLACE: u64 = 1048576;

// The calls on a program that stands.
#[derive(Clone, Copy)]
enum OnProgram {
    LayOn,
    Trial,
    Commit,
}

impl OnProgram {
    // None for the compile call.
    fn numbered(number: u64) -> Option<OnProgram> {
        match number {
            0..LAY_ON => None,
            LAY_ON..TRIAL => Some(OnProgram::LayOn),
            TRIAL..COMMIT => Some(OnProgram::Trial),
            _ => Some(OnProgram::Commit),
        }
    }
}

// The first N numbers, zeros for those that are lacking, and what is behind them.
fn first<const N: usize>(numbers: &[u64]) -> ([u64; N], &[u64]) {
    let mut found = [0; N];
    for (word, number) in found.iter_mut().zip(numbers) {
        *word = *number;
    }
    (found, numbers.get(N..).unwrap_or(&[]))
}

// A list behind its length: fewer numbers than that, and nothing behind it, where the numbers end before it does.
#[derive(Clone, Copy)]
struct List<'a> {
    length: u64,
    stored: &'a [u64],
    behind: Option<&'a [u64]>,
}

impl<'a> List<'a> {
    // The list at the start of numbers; an empty one that does not end where there are none.
    fn at(numbers: &'a [u64]) -> List<'a> {
        let Some((length, rest)) = numbers.split_first() else {
            return List {
                length: 0,
                stored: &[],
                behind: None,
            };
        };
        match rest.split_at_checked(*length as usize) {
            Some((stored, behind)) => List {
                length: *length,
                stored,
                behind: Some(behind),
            },
            None => List {
                length: *length,
                stored: rest,
                behind: None,
            },
        }
    }
}

fn print_difference(rt: &impl Print, part: usize, i: usize, is: u64, was: u64) -> io::Result<()> {
    println!(rt; "  part {part}, word {i}: {is}, stored {was}")
}

// The words of a part, 0 the reply, 13 what is left over and else an area, are no fewer than so many, and are the stored ones, and past them another.
fn same(
    rt: &impl Print,
    part: usize,
    words: &[u64],
    least: u64,
    stored: &[u64],
    past: u64,
) -> io::Result<bool> {
    if (words.len() as u64) < least {
        print_difference(rt, part, words.len(), 0, least)?;
        return Ok(false);
    }
    for (i, word) in words.iter().enumerate() {
        let was = stored.get(i).copied().unwrap_or(past);
        if *word != was {
            print_difference(rt, part, i, *word, was)?;
            return Ok(false);
        }
    }
    Ok(true)
}

// The words of a reply in the order of the stored numbers, which no derive gives.
fn words_of(reply: Reply) -> [u64; 17] {
    let totals = reply.totals;
    [
        reply.number,
        reply.place,
        totals.code,
        totals.constants,
        totals.functions,
        totals.models,
        totals.properties,
        totals.methods,
        totals.context_locals,
        totals.public_names,
        totals.scope_names,
        totals.breaks,
        totals.errors,
        totals.books,
        totals.entry_point,
        totals.global_dependencies,
        totals.bundles,
    ]
}

// The areas of these lengths follow each other in the memory, where a length that passes the memory's end is cut, and are the lists, and then zeros; what is
// left over is one word again and again, and no number stands after the lists.
fn same_areas(
    rt: &impl Print,
    memory: &[u64],
    lengths: [usize; 12],
    lists: &[u64],
    left: u64,
) -> io::Result<bool> {
    let mut fine = true;
    let mut rest = memory;
    let mut lists = Some(lists);
    for (i, length) in lengths.iter().enumerate() {
        let list = List::at(lists.unwrap_or(&[]));
        let (words, others) = rest.split_at((*length).min(rest.len()));
        fine = same(rt, i + 1, words, list.length, list.stored, 0)? && fine;
        rest = others;
        lists = list.behind;
    }
    fine = same(rt, 13, rest, 0, &[], left)? && fine;
    if !lists.is_some_and(|lists| lists.is_empty()) {
        println!(rt; "  the numbers end elsewhere")?;
        return Ok(false);
    }
    Ok(fine)
}

fn no_case(rt: &impl Print) -> io::Result<bool> {
    println!(rt; "  no case")?;
    Ok(false)
}

// What the slots must hold after a call on a program, where it leaves this reply: the program check comes first, and writes nothing.
fn slots_left(stored: &[u64]) -> u64 {
    let ([number, place], _) = first::<2>(stored);
    if number == BAD_SHAPE && place > PROGRAM_PLACE {
        return STALE;
    }
    0
}

// A call has left what is stored: the reply, and the areas' lists.
fn as_stored(
    rt: &impl Print,
    reply: Reply,
    memory: &[u64],
    lengths: [usize; 12],
    stored: &[u64],
    left: u64,
) -> io::Result<bool> {
    println!(rt; ": row {}, place {}", reply.number, reply.place)?;
    let (words, lists) = first::<17>(stored);
    let is_reply = same(rt, 0, &words_of(reply), 17, &words, 0)?;
    let are_areas = same_areas(rt, memory, lengths, lists, left)?;
    Ok(is_reply && are_areas)
}

// The areas of these lengths get the lists, and then zeros. The answer is what is behind the lists, if the last one ends.
fn put_areas<'a>(memory: &mut [u64], lengths: [usize; 12], lists: &'a [u64]) -> Option<&'a [u64]> {
    let mut start = 0;
    let mut rest = Some(lists);
    for length in lengths {
        let list = List::at(rest.unwrap_or(&[]));
        let end = start + length.min(memory.len() - start);
        let area = &mut memory[start..end];
        area.fill(0);
        for (word, stored) in area.iter_mut().zip(list.stored) {
            *word = *stored;
        }
        start = end;
        rest = list.behind;
    }
    rest
}

// A call on a program that is in the memory: behind the program's lists stands what the call must leave.
fn judge_on_program<F: FnOnce(&mut [u64]) -> Reply>(
    rt: &impl Print,
    memory: &mut [u64],
    lengths: [usize; 12],
    lists: &[u64],
    call: F,
) -> io::Result<bool>
    requires callable { F.IsAlwaysCallable call }
{
    let Some(stored) = put_areas(memory, lengths, lists) else {
        return no_case(rt);
    };
    let reply = call(memory);
    as_stored(rt, reply, memory, lengths, stored, slots_left(stored))
}

// A call in a memory: behind the lengths stand for the compile call what it must leave, for the others the totals of the program that stands, for a commit
// those of its trial, and the program's lists.
fn judge(
    rt: &impl Print,
    call: u64,
    tree: &[u64],
    memory: &mut [u64],
    lengths: [usize; 12],
    rest: &[u64],
) -> io::Result<bool> {
    let strict = call % 2 == 1;
    let Some(call) = OnProgram::numbered(call) else {
        let reply = compile(tree, strict, lengths, memory);
        return as_stored(rt, reply, memory, lengths, rest, 0);
    };
    let (totals, rest) = first::<15>(rest);
    let standing = totals_of(&totals);
    match call {
        OnProgram::LayOn => judge_on_program(
            rt,
            memory,
            lengths,
            rest,
            |memory| lay_on(tree, strict, standing, lengths, memory),
        ),
        OnProgram::Commit => {
            let (totals, rest) = first::<15>(rest);
            let tried = totals_of(&totals);
            judge_on_program(
                rt,
                memory,
                lengths,
                rest,
                |memory| commit(tree, strict, standing, tried, lengths, memory),
            )
        }
        OnProgram::Trial => judge_on_program(
            rt,
            memory,
            lengths,
            rest,
            |memory| trial(tree, strict, standing, lengths, memory),
        ),
    }
}

// A memory of so many words. It has a function of its own: one pays for all its words at entry, which a case that is none would pay too.
fn lend(
    rt: &impl Print,
    call: u64,
    tree: &[u64],
    size: usize,
    lengths: [usize; 12],
    rest: &[u64],
) -> io::Result<bool>
    requires { size ≤ 6144 }
{
    let mut memory = [STALE; MOST_MEMORY];
    judge(rt, call, tree, &mut memory[..size], lengths, rest)
}

// The numbers: the call, the words of the memory, the bundle as a list, the lengths, and what `judge` takes.
fn case(rt: &impl Print, numbers: &[u64]) -> io::Result<bool> {
    let Some((header, rest)) = numbers.split_first_chunk::<2>() else {
        return no_case(rt);
    };
    let [call, size] = *header;
    let bundle = List::at(rest);
    let Some(rest) = bundle.behind else {
        return no_case(rt);
    };
    let (lengths, rest) = first::<12>(rest);
    let size = size as usize;
    if size > MOST_MEMORY {
        println!(rt; "  no room")?;
        return Ok(false);
    }
    let lengths = lengths.map(|length| length as usize);
    lend(rt, call, bundle.stored, size, lengths, rest)
}

// Reads a case, given the bytes of its name and of its numbers, and judges it.
fn read_case(
    rt: &impl Print,
    input: &mut impl Read,
    name_size: usize,
    text_size: usize,
) -> io::Result<Option<bool>> {
    if name_size > MOST_NAME || text_size > MOST_TEXT {
        return Ok(None);
    }
    let mut name = [0; MOST_NAME];
    let n = read_full(input, &mut name[..name_size])?;
    rt.write_all(&name[..n])?;
    let mut text = [0; MOST_TEXT];
    let n = read_full(input, &mut text[..text_size])?;
    let mut numbers = [0; MOST_NUMBERS];
    let count = parse(&text[..n], &mut numbers);
    Ok(Some(case(rt, &numbers[..count])?))
}

// Whether the next case, if there is one, leaves what is stored.
fn next(rt: &impl Print, input: &mut impl Read) -> io::Result<Option<bool>> {
    let mut head = [0; 12];
    if read_full(input, &mut head)? < head.len() {
        return Ok(None);
    }
    let mut sizes = [0; 2];
    if parse(&head, &mut sizes) < sizes.len() {
        return Ok(None);
    }
    let [name_size, text_size] = sizes.map(|size| size as usize);
    read_case(rt, input, name_size, text_size)
}

fn end(rt: &impl Print, cases: u64, differ: u64) -> io::Result<()> {
    println!(rt; "{cases} cases, {differ} differ")
}

fn main(rt: HostRuntime) -> io::Result<()> {
    let mut input = rt.stdin();
    let mut differ = 0;
    for cases in 0..MOST_CASES {
        match next(&rt, &mut input)? {
            None => return end(&rt, cases, differ),
            Some(true) => {}
            Some(false) => differ += 1,
        }
    }
    end(&rt, MOST_CASES, differ)
}
