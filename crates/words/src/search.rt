// The entries of an area searched by one of their words.
ghost use Rattle.std.specs.Prelude.{◌≡◌, ◌*◌, ◌<◌, ◌≤◌, length};
ghost use Rattle.words.specs.Search.{Passes, found_of, find_word};

use crate::areas;
use crate::areas::MOST_WIDTH;

// An entry before which none has the value, where the area holds them all: no read is tested.
#[tactic(auto, using(crate::proofs::Searching::four_steps))]
fn pass<const WIDTH: usize, const WORD: usize>(
    area: &[u64],
    from: usize,
    end: usize,
    value: u64,
) -> usize
    requires word_lt_width { WORD < WIDTH }
    requires from_le_end { from ≤ end }
    requires width_in_bounds { end * WIDTH ≤ length area.now }
    ensures { Passes area.now WIDTH WORD value from end result }
{
    let mut i = from;
    // Four entries in a turn and no `for`, which is slower: a search takes a third less time so (docs/DECISIONS.md, 63).
    while 4 <= end - i {
        let at = i * WIDTH + WORD;
        if area[at] == value
            || area[at + WIDTH] == value
            || area[at + 2 * WIDTH] == value
            || area[at + 3 * WIDTH] == value
        {
            return i;
        }
        i += 4;
    }
    i
}

// The first entry of WIDTH words from a place up to the end whose word WORD is the value; a word outside the area or past the entry reads as 0. At most
// four entries are left to the loop where the area holds them all.
#[tactic(auto, using(crate::proofs::Firsts::first_steps, crate::proofs::Firsts::word_passed))]
pub fn find_word<const WIDTH: usize, const WORD: usize>(
    area: &[u64],
    from: usize,
    end: usize,
    value: u64,
) -> Option<usize>
    ensures { result ≡ found_of (find_word WIDTH WORD value from end area.now) }
{
    let mut start = from;
    if WIDTH <= MOST_WIDTH && WORD < WIDTH && from <= end && end <= area.len() / WIDTH {
        start = pass::<WIDTH, WORD>(area, from, end, value);
    }
    for i in start..end {
        if areas::entry_word(area, WIDTH, i, WORD) == value {
            return Some(i);
        }
    }
    None
}
