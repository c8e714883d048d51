// Words to their column file: a word a line, unsigned, right-justified in 21, at most 744 records; more answer 9, place 0, and a line that is no word
// answers 1 with its number. Number, place and total, then the file.
use column_files::records_to_columns;
use column_lines::line::LINE_LENGTH;
use column_lines::number::read_number;
use std::io;

const WORD_LINE: usize = 22;

const MOST_RECORDS: usize = 744;

const MOST_WORDS: usize = MOST_RECORDS * 4;

const MOST_BYTES: usize = MOST_WORDS * WORD_LINE;

const FILE_BYTES: usize = MOST_RECORDS * LINE_LENGTH;

// A line that is no word, counted from 1.
#[derive(Drop)]
struct BadLine(usize);

// The word of a line, if it is one.
fn word_in(line: &[u8]) -> Option<u64> {
    if line.len() != WORD_LINE {
        return None;
    }
    read_number(line.strip_suffix(b"\n")?, false)
}

// Reads a word a line, as many as there is room for.
fn read_words(text: &[u8], words: &mut [u64]) -> Result<(), BadLine> {
    for (i, (line, word)) in text.chunks(WORD_LINE).zip(words.iter_mut()).enumerate() {
        *word = word_in(line).ok_or(BadLine(i + 1))?;
    }
    Ok(())
}

pub(crate) fn case(rt: &impl Print, text: &[u8]) -> io::Result<()> {
    if text.len() > MOST_BYTES {
        return println!(rt; " 9 0 0");
    }
    let mut words = [0; MOST_WORDS];
    if let Err(BadLine(line)) = read_words(text, &mut words) {
        return println!(rt; " 1 {line} 0");
    }
    let mut out = [0; FILE_BYTES];
    let answer = records_to_columns(&words[..text.len() / WORD_LINE], &mut out);
    println!(rt; " {} {} {}", answer.number, answer.place, answer.total)?;
    if answer.total <= MOST_RECORDS {
        rt.write_all(&out[..answer.total * LINE_LENGTH])?;
    }
    Ok(())
}
