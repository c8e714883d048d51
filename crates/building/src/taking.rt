// An entry more of an area, and entries given up.
ghost use Rattle.std.specs.Prelude.{◌≡◌, length};
ghost use Rattle.building.specs.Taking.{Took, taken, start_of, given_up};

use words::areas;

// The first full area (0: none), and how many entries of one area are in use. `take` is lent the two by themselves: a state has one mark and several counts.
#[derive(Clone, Copy)]
pub struct Taken {
    pub full: u64,
    pub count: usize,
}

// An entry of N words behind those in use, and `count` one more; where there is no room, or N is 0, `full` is the area's number. With `full` set, nothing.
pub fn take<const N: usize>(
    area: &mut [u64],
    number: u64,
    full: &mut u64,
    count: &mut usize,
    words: [u64; N],
)
    ensures { Took number full.old count.old words.entry area.old (taken full.new count.new) area.new }
{
    if *full != 0 {
        return;
    }
    let i = *count;
    if N == 0 || area.len() / N <= i || areas::MOST_ENTRIES <= i {
        *full = number;
        return;
    }
    let at = i * N;
    area[at..at + N].copy_from_slice(&words);
    *count = i + 1;
}

// Where entry i starts, or the area's end where it starts behind that; at a width that no area has, 0.
fn start_of(area: &[u64], width: usize, i: usize) -> usize
    ensures { result ≡ start_of width i (length area.now) }
{
    if width == 0 || areas::MOST_WIDTH < width {
        return 0;
    }
    let end = area.len();
    if i < end {
        let at = i * width;
        if at < end {
            return at;
        }
    }
    end
}

// Gives up the entries from `from` up to `count`: zeros in their place.
pub fn give_up(area: &mut [u64], width: usize, from: usize, count: usize)
    ensures { area.new ≡ given_up width from count area.old }
{
    let start = start_of(area, width, from);
    let end = start_of(area, width, count);
    if start < end {
        area[start..end].fill(0);
    }
}
