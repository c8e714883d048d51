// A column file of at most 1,260 records to its records; a longer one answers 9, place 0. Number, place and total, then a word a line, unsigned,
// right-justified in 21.
use column_files::columns_to_records;
use column_lines::line::LINE_LENGTH;
use std::io;

const MOST_RECORDS: usize = 1260;

const MOST_BYTES: usize = MOST_RECORDS * LINE_LENGTH;

const MOST_WORDS: usize = MOST_RECORDS * 4;

pub(crate) fn case(rt: &impl Print, file: &[u8]) -> io::Result<()> {
    if file.len() > MOST_BYTES {
        return println!(rt; " 9 0 0");
    }
    let mut words = [0; MOST_WORDS];
    let answer = columns_to_records(file, &mut words);
    println!(rt; " {} {} {}", answer.number, answer.place, answer.total)?;
    if answer.total <= MOST_RECORDS {
        for word in &words[..answer.total * 4] {
            println!(rt; "{word:>21}")?;
        }
    }
    Ok(())
}
