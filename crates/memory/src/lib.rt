// One memory for the twelve areas of 01 and what is left over: where each part starts.
#![tactic(auto)]

ghost use Rattle.std.specs.Prelude.{◌≡◌};
ghost use Rattle.memory.specs.Layout.{starts_of};

// Where the parts of a memory of `size` words start: number i has the words from the i-th number on, up to the next one's. A part's end is cut at the
// memory's end, and the sum does not wrap.
pub fn starts_of(lengths: [usize; 12], size: usize) -> [usize; 15]
    ensures { result ≡ starts_of lengths size }
{
    let mut starts = [0usize; 15];
    for i in 0..12 {
        starts[i + 2] = size.min(starts[i + 1].saturating_add(lengths[i]));
    }
    starts[14] = size;
    starts
}
