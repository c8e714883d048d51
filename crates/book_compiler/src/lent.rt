// A part of the memory, by its number, lent to a routine or to be read. Part i has the words from starts[i] up to starts[i + 1]; where the starts do not fit
// the memory, they are cut at its end.
ghost use Rattle.std.specs.Prelude.{◌≡◌, ◌<◌};
ghost use Rattle.std.specs.Fn.{FnOnceReturnsAtMut};
ghost use Rattle.memory.specs.Layout.{part_count};
ghost use Rattle.book_compiler.specs.BookOrder.{LentPart, ReadsPart};
ghost use Rattle.book_compiler.specs.Lending.{ReturnsAtBoth};

// What the memory leaves over behind its areas: the table of slots.
pub(crate) const SLOTS: u64 = 13;

// The starts and the memory are parameters beside the state or the book, and no struct with methods: each method of one would promise, beside its relation,
// that the starts and the memory's reference stay.
// A closure takes the part, since the check proves no clause of a `&mut` to a part of a slice that is returned (tried: `Lends` over `&mut memory[start..end]`
// and over two calls of `split_at_mut`).
pub(crate) fn lend<R, F: FnOnce(&mut [u64]) -> R>(
    starts: &[usize; 15],
    memory: &mut [u64],
    number: u64,
    step: F,
) -> R
    requires callable { F.IsAlwaysCallable step }
    requires numbered { number < part_count }
    ensures lends { LentPart number (λ before after. FnOnceReturnsAtMut F.FnOnce step before result after) starts.now memory.old memory.new }
    ensures answers { (before : _) × (after : _) × FnOnceReturnsAtMut F.FnOnce step before result after }
{
    let end = starts[number as usize + 1].min(memory.len());
    let start = starts[number as usize].min(end);
    step(&mut memory[start..end])
}

// The same of a routine that a value is lent to beside the part.
pub(crate) fn lend_with<S, R, F: FnOnce(&mut [u64], &mut S) -> R>(
    starts: &[usize; 15],
    memory: &mut [u64],
    number: u64,
    value: &mut S,
    step: F,
) -> R
    requires callable { F.IsAlwaysCallable step }
    requires numbered { number < part_count }
    ensures lends { LentPart number (λ before after. ReturnsAtBoth F.FnOnce step before value.old result after value.new) starts.now memory.old memory.new }
    ensures answers { (before : _) × (after : _) × ReturnsAtBoth F.FnOnce step before value.old result after value.new }
{
    let end = starts[number as usize + 1].min(memory.len());
    let start = starts[number as usize].min(end);
    step(&mut memory[start..end], value)
}

pub(crate) fn part<'a>(starts: &[usize; 15], memory: &'a [u64], number: u64) -> &'a [u64]
    requires { number < part_count }
    ensures { ReadsPart number (λ words. result.now ≡ words) starts.now memory.now }
{
    let end = starts[number as usize + 1].min(memory.len());
    let start = starts[number as usize].min(end);
    &memory[start..end]
}
