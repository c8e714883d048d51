// Searches in an area by the first two words of an entry.
ghost use Rattle.std.specs.Prelude.{◌≡◌};
ghost use Rattle.building.specs.Found.{found_of};
ghost use Rattle.compiler_laws.specs.IncludeSteps.{is_pair, find_pair_c};

use words::areas;

// Whether the first two words of an entry are a and b.
fn is_pair(area: &[u64], width: usize, i: usize, a: u64, b: u64) -> bool
    ensures { result ≡ is_pair width a b area.now i }
{
    areas::entry_word(area, width, i, 0) == a && areas::entry_word(area, width, i, 1) == b
}

// The first entry from `from` on, up to the count, whose first two words are a and b.
pub(crate) fn find_pair(
    area: &[u64],
    width: usize,
    from: usize,
    count: usize,
    a: u64,
    b: u64,
) -> Option<u64>
    ensures { result ≡ found_of (find_pair_c width from count a b area.now) }
{
    for i in from..count {
        if is_pair(area, width, i, a, b) {
            return Some(i as u64);
        }
    }
    None
}
