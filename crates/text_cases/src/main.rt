// Column files and words, a line each, on stored cases. In standard input a case is a line, `label: size room`, then so many bytes as they are, and a
// newline; a line without a colon names the part that the cases behind it are of, and each part has a module. `room` is in words, for the part `files`
// alone. For each case the label and what was answered go out, for each part its line; `stdout` has what they must be.
#![tactic(auto)]

ghost use Rattle.std.specs.Prelude.{◌≤◌, length, IfOk};

mod columns;
mod files;
mod records;

use case_numbers::{find, parse, same};
use reading::read_full;
use std::io;

const MOST_BYTES: usize = 262144;

#[derive(Clone, Copy)]
enum Part {
    Files,
    Records,
    Columns,
}

impl Part {
    // The part that a line names.
    fn named(line: &[u8]) -> Option<Part> {
        if same(line, b"part files") {
            return Some(Part::Files);
        }
        if same(line, b"part records") {
            return Some(Part::Records);
        }
        if same(line, b"part columns") {
            return Some(Part::Columns);
        }
        None
    }
}

// A case, given its sizes and the text behind its line, and how much of that text it takes.
fn case(rt: &impl Print, part: Option<Part>, sizes: &[u8], text: &[u8]) -> io::Result<usize>
    ensures { IfOk result (λ n. n ≤ length text.now) }
{
    let mut numbers = [0; 2];
    parse(sizes, &mut numbers);
    let [size, room] = numbers.map(|number| number as usize);
    if size >= text.len() {
        rt.write_all(b" too short\n")?;
        return Ok(text.len());
    }
    let bytes = &text[..size];
    match part {
        Some(Part::Files) => files::case(rt, bytes, room)?,
        Some(Part::Records) => records::case(rt, bytes)?,
        Some(Part::Columns) => columns::case(rt, bytes)?,
        None => rt.write_all(b" no part\n")?,
    }
    Ok(size + 1)
}

fn cases(rt: &impl Print, text: &[u8]) -> io::Result<()> {
    let mut part = None;
    let mut at: usize = 0;
    // No `for` over lines: how much of the text behind a line is its case's, `case` answers.
    while at < text.len() {
        let end = find(text, at, b'\n');
        if end >= text.len() {
            return Ok(());
        }
        let line = &text[at..end];
        let colon = find(line, 0, b':');
        at = end + 1;
        if colon < line.len() {
            rt.write_all(&line[..colon])?;
            rt.write_all(b":")?;
            at += case(rt, part, &line[colon..], &text[at..])?;
        } else {
            part = Part::named(line);
            if part.is_none() {
                rt.write_all(b"unknown ")?;
            }
            rt.write_all(line)?;
            rt.write_all(b"\n")?;
        }
    }
    Ok(())
}

fn main(rt: HostRuntime) -> io::Result<()> {
    let mut text = vec![in rt.alloc(); 0; MOST_BYTES]?;
    let n = read_full(&mut rt.stdin(), &mut text)?;
    cases(&rt, &text[..n])
}
