// Methods in the order of 01: by model, then name.
ghost use Rattle.std.specs.Prelude.{◌≡◌, None};
ghost use Rattle.listings.specs.Selecting.{key_of, key_below, lesser_key, least_from, method_after};

use crate::lines::{METHOD_MODEL, METHOD_NAME};
use words::areas::{METHOD_WORDS, entry_word};

// The key of a method with its entry, so that a search's loop reads each entry's key once.
#[derive(Clone, Copy)]
struct MethodKey {
    entry: usize,
    model: u64,
    name: u64,
}

impl MethodKey {
    #[tactic(auto, unfolding(words::specs::Areas::entry_field))]
    fn of(methods: &[u64], i: usize) -> MethodKey
        ensures { result ≡ key_of methods.now i }
    {
        MethodKey {
            entry: i,
            model: entry_word(methods, METHOD_WORDS, i, METHOD_MODEL),
            name: entry_word(methods, METHOD_WORDS, i, METHOD_NAME),
        }
    }

    // Whether this key is below the other. In steps, since pairs compared, or a derived order, take longer (docs/DESIGN-PASS.md, 'Tried, slower').
    fn is_below(self, other: MethodKey) -> bool
        ensures { result ≡ key_below self other }
    {
        if self.model < other.model {
            return true;
        }
        if self.model == other.model {
            return self.name < other.name;
        }
        false
    }
}

// The least so far, with one more key.
fn lesser_of(last: Option<MethodKey>, least: Option<MethodKey>, key: MethodKey) -> Option<MethodKey>
    ensures { result ≡ lesser_key last least key }
{
    if last.is_none_or(|listed| listed.is_below(key))
        && least.is_none_or(|other| key.is_below(other))
    {
        Some(key)
    } else {
        least
    }
}

// The least of n entries above the one that was listed last.
#[tactic(auto, using(crate::proofs::Keys::least_begin, crate::proofs::Keys::least_more, crate::proofs::Keys::least_all))]
pub fn least_above(methods: &[u64], n: usize, last: Option<usize>) -> Option<usize>
    ensures { result ≡ least_from methods.now last None 0 n }
{
    let listed = last.map(|j| MethodKey::of(methods, j));
    let mut least = None;
    for i in 0..n {
        least = lesser_of(listed, least, MethodKey::of(methods, i));
    }
    least.map(|key| key.entry)
}

// The method to list after one; after the last there is none.
#[tactic(auto, unfolding(crate::specs::Selecting::method_after))]
pub fn method_after(methods: &[u64], n: usize, method: Option<usize>) -> Option<usize>
    ensures { result ≡ method_after methods.now n method }
{
    method.and_then(|j| least_above(methods, n, Some(j)))
}
