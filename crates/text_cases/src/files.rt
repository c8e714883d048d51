// Both converters of `column_files` on a file, with so many words of room. Number, place and total, the last word of the records, and 1 where all is as it
// must be: after a refusal zeros alone; after a success the file again from the records, also where it has just room, and zeros after both.
use column_files::{columns_to_records, records_to_columns};
use std::io;

const MOST_FILE: usize = 4096;

const MOST_ROOM: usize = 512;

// The records give a number, and these bytes with zeros after them.
fn gives(words: &[u64], out: &mut [u8], number: u64, file: &[u8]) -> bool {
    records_to_columns(words, out).number == number
        && out
            .strip_prefix(file)
            .is_some_and(|rest| rest.iter().all(|byte| *byte == 0))
}

// The records give the file again, where there is room for it and where there is just room; one byte less has none, and leaves zeros. So does one word
// less, which is no multiple of 4, by row 2. Four calls and no list of rows: each has a memory of its own length, which rows would only name once more.
fn back(words: &[u64], file: &[u8]) -> bool {
    let end = file.len();
    if end == 0 || end > MOST_FILE {
        return false;
    }
    let Some((_, odd)) = words.split_last() else {
        return false;
    };
    let mut wide = [7; 2 * MOST_FILE];
    let mut tight = [7; MOST_FILE];
    let mut short = [7; MOST_FILE];
    let mut none = [7; 64];
    gives(words, &mut wide, 0, file)
        && gives(words, &mut tight[..end], 0, file)
        && gives(words, &mut short[..end - 1], 9, b"")
        && gives(odd, &mut none, 2, b"")
}

// A case, with as many words as there is room for.
fn judge(rt: &impl Print, file: &[u8], words: &mut [u64]) -> io::Result<()> {
    let answer = columns_to_records(file, words);
    print!(rt; " {} {} {}", answer.number, answer.place, answer.total)?;
    if answer.total > words.len() / 4 {
        return Ok(());
    }
    let (records, rest) = words.split_at(answer.total * 4);
    let last = records.last().copied().unwrap_or(0);
    let zeros = rest.iter().all(|word| *word == 0);
    let fine = zeros && (records.is_empty() || back(records, file));
    print!(rt; " {last} {}", u64::from(fine))
}

pub(crate) fn case(rt: &impl Print, file: &[u8], room: usize) -> io::Result<()> {
    let mut words = [7; MOST_ROOM];
    if room <= MOST_ROOM {
        judge(rt, file, &mut words[..room])?;
    }
    println!(rt; "")
}
