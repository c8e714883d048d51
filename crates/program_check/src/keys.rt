// Keys: no two entries have the same. Each key has a place in a set of bits; only a key whose place is taken is compared with those before it.
// Many entries are looked at in several passes, each over the keys of one share, so that few places are taken by another key.
ghost use Rattle.std.specs.Prelude.{◌<◌, ◌/◌, ◌≡◌, length};
ghost use Rattle.program_check.specs.Keys.{fresh_by, keys_by, hash_of, share_fresh, set_size, set_words};
ghost use Rattle.program_check.specs.KeySets.{Notes, HasPlaces, Looked};

use words::areas::entry_word;

// Places in a set of bits.
const SET_SIZE: u64 = 1048576;

const SET_WORDS: usize = 16384;

// Odd, so that groups of one name have different places; near 1,048,576 over the golden ratio, so that groups that follow each other lie apart.
const STRIDE: u64 = 648055;

// Keys that differ in the group alone or in the name alone, below SET_SIZE both, have different places.
#[tactic(auto, using(std::proofs::lemmas::Grind::common_steps), unfolding(crate::specs::Keys::hash_of))]
fn hash_of(group: u64, name: u64) -> u64
    ensures { result ≡ hash_of group name }
{
    (group % SET_SIZE) * STRIDE + name % SET_SIZE
}

// Whether a number is in a set of bits; it is from now on.
#[tactic(auto, using(crate::proofs::KeyPlaces::noted))]
fn note(set: &mut [u64], n: u64) -> bool
    requires { n / 64 < length set.old }
    ensures { Notes set.old n set.new result }
{
    let at = (n / 64) as usize;
    let word = set[at];
    set[at] = word | (1 << (n % 64));
    (word >> (n % 64)) % 2 == 1
}

// The keys of an area's entries: of each the word of its group and that of its name.
#[derive(Clone, Copy)]
pub(crate) struct Keys<'a> {
    pub(crate) words: &'a [u64],
    pub(crate) width: usize,
    pub(crate) group: usize,
    pub(crate) name: usize,
}

impl Keys<'_> {
    // Whether no entry before entry i has its key.
    fn is_fresh(&self, i: usize) -> bool
        ensures { result ≡ fresh_by self.now.width self.now.group self.now.name self.now.words.now i }
    {
        let group = entry_word(self.words, self.width, i, self.group);
        let name = entry_word(self.words, self.width, i, self.name);
        for j in 0..i {
            let other_group = entry_word(self.words, self.width, j, self.group);
            let other_name = entry_word(self.words, self.width, j, self.name);
            let same = (group == other_group) & (name == other_name);
            if same {
                return false;
            }
        }
        true
    }

    // Whether entry i is of another share, or no entry before it has its key. The set has the places of the share's keys before it, and then its own.
    fn entry_differs(&self, i: usize, shares: u64, share: u64, set: &mut [u64]) -> bool
        requires shares_nonzero { 0 < shares }
        requires set_len { length set.old ≡ set_words }
        requires has_places { HasPlaces self.now.width self.now.group self.now.name self.now.words.now shares share i set.old }
        ensures { Looked self.now.width self.now.group self.now.name self.now.words.now shares share i set.new result }
    {
        let group = entry_word(self.words, self.width, i, self.group);
        let name = entry_word(self.words, self.width, i, self.name);
        let hash = hash_of(group, name);
        if (hash / SET_SIZE) % shares != share {
            return true;
        }
        let taken = note(set, hash % SET_SIZE);
        if !taken {
            return true;
        }
        self.is_fresh(i)
    }

    // The keys of one share, with a set for their places.
    fn share_differs_in(&self, total: u64, shares: u64, share: u64, set: &mut [u64]) -> bool
        requires shares_nonzero { 0 < shares }
        requires set_len { length set.old ≡ set_words }
        ensures { result ≡ share_fresh self.now.width self.now.group self.now.name self.now.words.now total shares share }
    {
        for i in 0..total as usize {
            if !self.entry_differs(i, shares, share, set) {
                return false;
            }
        }
        true
    }

    // One pass.
    fn share_differs(&self, total: u64, shares: u64, share: u64) -> bool
        requires { 0 < shares }
        ensures { result ≡ share_fresh self.now.width self.now.group self.now.name self.now.words.now total shares share }
    {
        let mut set = [0; SET_WORDS];
        self.share_differs_in(total, shares, share, &mut set)
    }

    // Whether no two of the first entries have the same key.
    pub(crate) fn differ(&self, total: u64, shares: u64) -> bool
        requires { 0 < shares }
        ensures { result ≡ keys_by self.now.width self.now.group self.now.name self.now.words.now total }
    {
        for share in 0..shares {
            if !self.share_differs(total, shares, share) {
                return false;
            }
        }
        true
    }
}
