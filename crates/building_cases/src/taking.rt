// Entries of each width, taken and given up.
ghost use Rattle.std.specs.Prelude.{◌≤◌, ◌<◌};

use crate::lines;
use building::taking;
use std::io;

const MOST_WORDS: usize = 16;

// Two entries of area 12, which has so many words.
fn take_case<const N: usize>(
    rt: &impl Print,
    case: &str,
    words: usize,
    mark: u64,
    first: [u64; N],
    second: [u64; N],
) -> io::Result<()>
    requires { words ≤ 16 }
{
    print!(rt; "take{N}, {case}:")?;
    let mut area = [0; MOST_WORDS];
    let mut full = mark;
    let mut count = 0;
    taking::take(&mut area[..words], 12, &mut full, &mut count, first);
    taking::take(&mut area[..words], 12, &mut full, &mut count, second);
    lines::area(rt, full, count, &area[..words])
}

fn take_cases<const N: usize>(rt: &impl Print, first: [u64; N], second: [u64; N]) -> io::Result<()>
    requires { (0 < N) × (N ≤ 8) }
{
    take_case(rt, "no room", N - 1, 0, first, second)?;
    take_case(rt, "one entry short", 2 * N - 1, 0, first, second)?;
    take_case(rt, "room for all", 2 * N, 0, first, second)?;
    take_case(rt, "marked as full", 2 * N, 9, first, second)
}

// Of an area of seven words, the entries that are given up at a width.
fn give_up_case(
    rt: &impl Print,
    label: &str,
    width: usize,
    from: usize,
    count: usize,
) -> io::Result<()> {
    lines::begin(rt, label)?;
    let mut area = [5; 7];
    taking::give_up(&mut area, width, from, count);
    lines::area(rt, 0, count, &area)
}

// Within the area, none, up to the area's end and beyond it, and at widths that no area has.
fn give_up_cases(rt: &impl Print) -> io::Result<()> {
    give_up_case(rt, "give_up, within the area", 2, 1, 2)?;
    give_up_case(rt, "give_up, none", 2, 2, 2)?;
    give_up_case(rt, "give_up, backwards", 2, 3, 1)?;
    give_up_case(rt, "give_up, up to the end and beyond", 3, 1, 3)?;
    give_up_case(rt, "give_up, beyond the end", 1, 7, 9)?;
    give_up_case(rt, "give_up, width 0", 0, 0, 7)?;
    give_up_case(rt, "give_up, width 9", 9, 0, 7)
}

pub(crate) fn cases(rt: &impl Print) -> io::Result<()> {
    take_cases(rt, [1], [2])?;
    take_cases(rt, [1, 2], [3, 4])?;
    take_cases(rt, [1, 2, 3], [4, 5, 6])?;
    take_cases(rt, [1, 2, 3, 4], [5, 6, 7, 8])?;
    take_cases(
        rt,
        [1, 2, 3, 4, 5, 6, 7, 8],
        [9, 10, 11, 12, 13, 14, 15, 16],
    )?;
    give_up_cases(rt)
}
