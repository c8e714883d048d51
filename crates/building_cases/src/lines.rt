// How a case is written: a line with its label, then what was answered, by name, and the area: the mark, the count and the words.
use std::io;

// The cases behind this line are of this part.
pub(crate) fn part(rt: &impl Print, name: &str) -> io::Result<()> {
    println!(rt; "part {name}")
}

// What a case lends: so many words, and the mark of a full area that stands before.
#[derive(Clone, Copy)]
pub(crate) struct Room<'a> {
    pub(crate) name: &'a str,
    pub(crate) words: usize,
    pub(crate) full: u64,
}

pub(crate) fn begin(rt: &impl Print, label: &str) -> io::Result<()> {
    print!(rt; "{label}:")
}

// A part of a case that writes more than one line.
pub(crate) fn begin_part(rt: &impl Print, label: &str, part: &str) -> io::Result<()> {
    print!(rt; "{label}, {part}:")
}

pub(crate) fn answer(rt: &impl Print, name: &str, n: u64) -> io::Result<()> {
    print!(rt; " {name} {n}")
}

pub(crate) fn truth(rt: &impl Print, name: &str, b: bool) -> io::Result<()> {
    let word = if b { "yes" } else { "no" };
    print!(rt; " {name} {word}")
}

pub(crate) fn found(rt: &impl Print, name: &str, found: Option<u64>) -> io::Result<()> {
    match found {
        Some(i) => answer(rt, name, i),
        None => print!(rt; " {name} nothing"),
    }
}

// The loop stays: `try_for_each` with a closure that prints is no plainer than `?` in a `for`.
pub(crate) fn words(rt: &impl Print, words: &[u64]) -> io::Result<()> {
    for word in words {
        print!(rt; " {word}")?;
    }
    Ok(())
}

// The end of a line.
pub(crate) fn area(rt: &impl Print, full: u64, count: usize, area: &[u64]) -> io::Result<()> {
    print!(rt; " full {full} entries {count} words")?;
    words(rt, area)?;
    println!(rt; "")
}
