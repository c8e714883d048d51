// The routines of `constant_slots`: way, kind, value, count, slots, then the slots' words and those of the pool. Way 1 is the search, on any table: found
// (1 or 0), number, slots looked at. Way 2 fills the table, way 3 puts constant number `count` into it, way 4 clears it: every slot is written, with the two
// beside the table.
use crate::elements::print_all;
use constant_slots::plain::ConstantWords;
use constant_slots::slots::{clear, fill, find, put};
use std::io;

const MOST_SLOTS: usize = 60;

enum Way {
    Search,
    Fill,
    Put,
    Clear,
}

impl From<u64> for Way {
    fn from(number: u64) -> Way {
        match number {
            1 => Way::Search,
            2 => Way::Fill,
            3 => Way::Put,
            _ => Way::Clear,
        }
    }
}

// What a change leaves of a table and of the words beside it.
fn print_changed<F: FnOnce(&mut [u64])>(rt: &impl Print, table: &[u64], change: F) -> io::Result<()>
    requires callable { F.IsAlwaysCallable change }
{
    let size = table.len();
    if size > MOST_SLOTS {
        return Ok(());
    }
    let mut words = [7; 64];
    words[1..=size].copy_from_slice(table);
    change(&mut words[1..=size]);
    print_all(rt, &words[..size + 2])
}

pub(crate) fn case(rt: &impl Print, numbers: &[u64]) -> io::Result<()> {
    let Some((header, rest)) = numbers.split_first_chunk::<5>() else {
        return Ok(());
    };
    let [way, kind, value, count, size] = *header;
    let Some((table, pool)) = rest.split_at_checked(size as usize) else {
        return Ok(());
    };
    let constant = ConstantWords { kind, value };
    match Way::from(way) {
        Way::Search => {
            let searched = find(pool, count as usize, table, constant);
            match searched.found {
                Some(i) => print!(rt; " 1 {i} {}", searched.looked),
                None => print!(rt; " 0 0 {}", searched.looked),
            }
        }
        Way::Fill => print_changed(rt, table, |table| fill(pool, count as usize, table)),
        Way::Put => print_changed(rt, table, |table| put(table, count, constant)),
        Way::Clear => print_changed(rt, table, |table| clear(table)),
    }
}
