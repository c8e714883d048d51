// Routines that take and answer words, on stored cases. A line of standard input is a case, `label: number number ..`, and a line without a colon names the
// part that the cases behind it are of; each part has a module, which says what the numbers are. For each case the label and what was answered go out, for each
// part its line; `stdout` has what they must be.
#![tactic(auto)]

mod elements;
mod errors;
mod programs;
mod shapes;
mod slots;
mod tables;

use crate::programs::Program;
use case_numbers::{find, parse, same};
use reading::read_full;
use std::io;

const MOST_BYTES: usize = 524288;

const MOST_NUMBERS: usize = 1024;

#[derive(Clone, Copy)]
enum Part {
    Shapes,
    Slots,
    Programs,
    Tables,
    Errors,
}

impl Part {
    // The part that a line names.
    fn named(line: &[u8]) -> Option<Part> {
        if same(line, b"part shapes") {
            return Some(Part::Shapes);
        }
        if same(line, b"part slots") {
            return Some(Part::Slots);
        }
        if same(line, b"part programs") {
            return Some(Part::Programs);
        }
        if same(line, b"part tables") {
            return Some(Part::Tables);
        }
        if same(line, b"part errors") {
            return Some(Part::Errors);
        }
        None
    }
}

fn case(rt: &impl Print, part: Option<Part>, text: &[u8], program: &mut Program) -> io::Result<()> {
    let mut numbers = [0; MOST_NUMBERS];
    let count = parse(text, &mut numbers);
    let numbers = &numbers[..count];
    match part {
        Some(Part::Shapes) => shapes::case(rt, numbers),
        Some(Part::Slots) => slots::case(rt, numbers),
        Some(Part::Programs) => programs::case(rt, numbers, program),
        Some(Part::Tables) => tables::case(rt, numbers),
        Some(Part::Errors) => errors::case(rt, numbers),
        None => rt.write_all(b" no part"),
    }
}

fn cases(rt: &impl Print, text: &[u8], program: &mut Program) -> io::Result<()> {
    let mut part = None;
    for line in text.split_inclusive(|byte| *byte == b'\n') {
        let line = line.strip_suffix(b"\n").unwrap_or(line);
        let colon = find(line, 0, b':');
        if colon < line.len() {
            rt.write_all(&line[..colon])?;
            rt.write_all(b":")?;
            case(rt, part, &line[colon..], program)?;
        } else {
            part = Part::named(line);
            if part.is_none() {
                rt.write_all(b"unknown ")?;
            }
            rt.write_all(line)?;
        }
        rt.write_all(b"\n")?;
    }
    Ok(())
}

fn main(rt: HostRuntime) -> io::Result<()> {
    let mut text = vec![in rt.alloc(); 0; MOST_BYTES]?;
    let n = read_full(&mut rt.stdin(), &mut text)?;
    let mut program = Program::none();
    cases(&rt, &text[..n], &mut program)
}
