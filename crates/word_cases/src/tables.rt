// Both ways of `constant_tables`: the way (1 to records, 2 back), the file number, how many elements the output has, then the table's bytes or the document's
// words. The reply, and every element of the output with those beside it.
use crate::elements::{copy_bytes, print_all};
use constant_tables::{records_to_table, table_to_records};
use std::io;

// Elements before and after the output, and what all hold before a call.
const BESIDE: usize = 2;

const MOST_ROOM: usize = 500;

enum Way {
    ToRecords,
    ToTable,
}

impl From<u64> for Way {
    fn from(number: u64) -> Way {
        match number {
            2 => Way::ToTable,
            _ => Way::ToRecords,
        }
    }
}

fn to_records(rt: &impl Print, table: &[u64], file: u64, room: usize) -> io::Result<()> {
    if room > MOST_ROOM || table.len() > MOST_ROOM {
        return Ok(());
    }
    let mut bytes = [0; 512];
    copy_bytes(table, &mut bytes);
    let mut out = [7; 512];
    let end = BESIDE + room;
    let answer = table_to_records(&bytes[..table.len()], file, &mut out[BESIDE..end]);
    print!(rt; " {} {} {}", answer.number, answer.place, answer.total)?;
    print_all(rt, &out[..end + BESIDE])
}

fn to_table(rt: &impl Print, tree: &[u64], room: usize) -> io::Result<()> {
    if room > MOST_ROOM {
        return Ok(());
    }
    let mut out = [7; 512];
    let end = BESIDE + room;
    let answer = records_to_table(tree, &mut out[BESIDE..end]);
    print!(rt;
        " {} {} {} {}",
        answer.number, answer.place, answer.total, answer.file
    )?;
    print_all(rt, &out[..end + BESIDE])
}

pub(crate) fn case(rt: &impl Print, numbers: &[u64]) -> io::Result<()> {
    let Some((header, rest)) = numbers.split_first_chunk::<3>() else {
        return Ok(());
    };
    let [way, file, room] = *header;
    match Way::from(way) {
        Way::ToRecords => to_records(rt, rest, file, room as usize),
        Way::ToTable => to_table(rt, rest, room as usize),
    }
}
