// Places in the tree: where the subtree at a place ends.
ghost use Rattle.std.specs.Prelude.{◌≡◌, ◌-◌};
ghost use Rattle.compiler_laws.specs.InsideFunction.{skip_c};

use words::record;
use words::record::field;

// The end of the subtree at a place, held to the end.
pub(crate) fn skip(tree: &[u64], at: usize, end: usize) -> usize
    ensures { result ≡ skip_c tree.now at end }
{
    if at < end {
        let span = field(tree, at, record::SPAN);
        if span == 0 {
            return at + 1;
        }
        if span < (end - at) as u64 {
            return at + span as usize;
        }
        return end;
    }
    at
}

// The record at a place, and where its subtree ends.
#[derive(Clone, Copy)]
pub struct Subtree {
    pub at: usize,
    pub end: usize,
}

// The subtrees that follow each other from a place up to an end.
#[derive(Clone, Copy)]
pub struct Subtrees<'a> {
    pub tree: &'a [u64],
    pub at: usize,
    pub end: usize,
}

impl Iterator for Subtrees<'_> {
    ghost use Rattle.std.specs.Iterator.{at_most};
    ghost use Rattle.book_compiler.specs.Subtrees.{StepsOver};

    type Item = Subtree;

    ghost next_gives = { λ s found s'. StepsOver s.tree.now s.at s.end found s'.tree.now s'.at s'.end };

    ghost remaining = { λ s. at_most (s.end - s.at) };

    fn next(&mut self) -> Option<Subtree> {
        if self.end <= self.at {
            return None;
        }
        let at = self.at;
        self.at = skip(self.tree, at, self.end);
        Some(Subtree { at, end: self.at })
    }
}

// The pairs of leaves that stand behind the record at a place, up to its end: each by the place of its first. One leaf that is left over is no pair.
#[derive(Clone, Copy)]
pub struct Pairs {
    pub at: usize,
    pub end: usize,
}

impl Iterator for Pairs {
    ghost use Rattle.std.specs.Iterator.{at_most};
    ghost use Rattle.book_compiler.specs.Subtrees.{StepsByTwo};

    type Item = usize;

    ghost next_gives = { λ s found s'. StepsByTwo s.at s.end found s'.at s'.end };

    ghost remaining = { λ s. at_most (s.end - s.at) };

    fn next(&mut self) -> Option<usize> {
        if self.end <= self.at || self.end - self.at <= 2 {
            return None;
        }
        let first = self.at + 1;
        self.at = first + 1;
        Some(first)
    }
}
