// `errors_in_words`: how many words the errors are, how many the table, how many bytes there are, the file number, the length of the line buffer; then the
// errors, the table and the bytes. The buffer is filled with stale bytes before, and has stale bytes beside it. Number, place and total; the bytes that were
// delivered; and whether the rest of the buffer is zero and the bytes beside it are kept.
use crate::elements::copy_bytes;
use error_lines::errors_in_words;
use std::io;

const STALE: u8 = 0xA5;

// Bytes beside the buffer, on each side.
const GUARD: usize = 8;

const MOST_PART: usize = 300;

const MOST_ROOM: usize = 2000;

fn print_kept(rt: &impl Print, beside: &[u8]) -> io::Result<()> {
    if beside.iter().all(|byte| *byte == STALE) {
        print!(rt; ", kept")
    } else {
        print!(rt; ", OVERWRITTEN")
    }
}

// The parts of a case's words behind the first five, of these lengths.
fn parts(words: &[u64], lengths: [usize; 3]) -> Option<(&[u64], &[u64], &[u64])> {
    let (errors, rest) = words.split_at_checked(lengths[0])?;
    let (table, rest) = rest.split_at_checked(lengths[1])?;
    let text = rest.get(..lengths[2])?;
    Some((errors, table, text))
}

pub(crate) fn case(rt: &impl Print, words: &[u64]) -> io::Result<()> {
    let Some((header, rest)) = words.split_first_chunk::<5>() else {
        return Ok(());
    };
    let [errors, table, text, file, room] = *header;
    let lengths = [errors as usize, table as usize, text as usize];
    let Some((errors, table, text)) = parts(rest, lengths) else {
        return Ok(());
    };
    let room = room as usize;
    if errors.len().max(table.len()) > MOST_PART || text.len() > MOST_PART || room > MOST_ROOM {
        return Ok(());
    }
    let mut bytes = [0; MOST_PART];
    copy_bytes(text, &mut bytes);
    let mut out = [STALE; GUARD + MOST_ROOM + GUARD];
    let end = GUARD + room;
    let answer = errors_in_words(
        errors,
        file,
        table,
        &bytes[..text.len()],
        &mut out[GUARD..end],
    );
    println!(rt; " {} {} {}", answer.number, answer.place, answer.total)?;
    if let Some((lines, rest)) = out[GUARD..end].split_at_checked(answer.total) {
        rt.write_all(lines)?;
        let zeros = rest.iter().all(|byte| *byte == 0);
        print!(rt; "{}", if zeros { "zeros" } else { "NOT ZERO" })?;
    }
    print_kept(rt, &out[..GUARD])?;
    print_kept(rt, &out[end..])
}
