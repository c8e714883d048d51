// `backend/function_state.rs`: scopes and locals, flat in area 9.
ghost use Rattle.std.specs.Prelude.{◌≡◌, ◌-◌};
ghost use Rattle.building.specs.Found.{found_of, find_newest, find_narrow};
ghost use Rattle.building.specs.Scopes.{naming, find_local_c, enter_scope_c, exit_scope_c, end_function_c, define_anonymous_c, insert_c, defined, Defines};

use crate::function_state::FunctionState;
use crate::taking;
use words::areas;

// The words of a name's entry.
const NAME: usize = 0;

const LOCAL: usize = 1;

// What a search among names and locals of 32 bits finds: a local of 32 bits, nothing, or a local past 32 bits. `Beyond`: the area does not hold every entry.
// Four cases and no `Result` of an `Option`: `narrow_of` and `widened` of specs/Found.antt tell the four apart.
#[derive(Clone, Copy)]
enum Narrow {
    At(u32),
    Nothing,
    Wide,
    Beyond,
}

// The greatest number of 32 bits.
const MOST_NARROW: u64 = 4294967295;

// The search of `find_newest` for a name of 32 bits where the area holds every entry, which is asked once: then no read is tested. Words are compared
// whole, and a local past 32 bits is said to be one. The loop counts words and not entries, for speed (docs/landings/2026-03.md, 'Benchmarks').
fn find_narrow(names: &[u64], from: usize, end: usize, name: u32) -> Narrow
    ensures { result ≡ find_narrow from end name names.now }
{
    if names.len() / areas::SCOPE_NAME_WORDS < end {
        return Narrow::Beyond;
    }
    if end <= from {
        return Narrow::Nothing;
    }
    let wanted = name as u64;
    let stop = from * areas::SCOPE_NAME_WORDS;
    let mut at = end * areas::SCOPE_NAME_WORDS;
    while stop < at {
        at -= areas::SCOPE_NAME_WORDS;
        if names[at + NAME] == wanted {
            let local = names[at + LOCAL];
            if local <= MOST_NARROW {
                return Narrow::At(local as u32);
            }
            return Narrow::Wide;
        }
    }
    Narrow::Nothing
}

// The local of a name among the entries from `from` up to the count, the newest first, in a function of so many locals. Names and locals of 32 bits are
// searched as such. Where the name, a local of the function or the local found is past 32 bits, the search of 64 bits answers, and where the count is
// beyond the area: there a word outside reads as 0. `find_narrow` asks that again; asked here first, the compiler leaves one test, and fewer instructions.
#[tactic(auto, using(crate::proofs::NewestFirst::newest_steps, crate::proofs::NarrowAgrees::narrow_steps))]
fn find_newest(names: &[u64], from: usize, count: usize, locals: u64, name: u64) -> Option<u64>
    ensures { result ≡ found_of (find_newest (count - from) from name names.now) }
{
    if count <= names.len() / areas::SCOPE_NAME_WORDS
        && name <= MOST_NARROW
        && locals <= MOST_NARROW + 1
    {
        match find_narrow(names, from, count, name as u32) {
            Narrow::At(local) => return Some(u64::from(local)),
            Narrow::Nothing => return None,
            Narrow::Wide | Narrow::Beyond => {}
        }
    }
    for i in (from..count).rev() {
        let other = areas::entry_word(names, areas::SCOPE_NAME_WORDS, i, NAME);
        if other == name {
            let local = areas::entry_word(names, areas::SCOPE_NAME_WORDS, i, LOCAL);
            return Some(local);
        }
    }
    None
}

impl FunctionState {
    pub fn find_local(&self, names: &[u64], name: u64) -> Option<u64>
        ensures { result ≡ found_of (find_local_c name (naming self.now names.now)) }
    {
        find_newest(names, 0, self.names, self.local_count, name)
    }

    pub fn enter_scope(&mut self)
        ensures { self.new ≡ enter_scope_c self.old }
    {
        if self.full == 0 {
            self.scope_base = self.names;
        }
    }

    // `start` is where the names of the scope around start. The scope's own are given up.
    #[tactic(auto, unfolding(crate::specs::Scopes::exit_scope_c))]
    pub fn exit_scope(&mut self, names: &mut [u64], start: usize)
        ensures { naming self.new names.new ≡ exit_scope_c start (naming self.old names.old) }
    {
        if self.full == 0 {
            taking::give_up(names, areas::SCOPE_NAME_WORDS, self.scope_base, self.names);
            self.names = self.names.min(self.scope_base);
            self.scope_base = start;
        }
    }

    // The function ends, and its outermost scope with it: all names are given up.
    #[tactic(auto, unfolding(crate::specs::Scopes::end_function_c))]
    pub fn end_function(&mut self, names: &mut [u64])
        ensures { naming self.new names.new ≡ end_function_c (naming self.old names.old) }
    {
        if self.full == 0 {
            taking::give_up(names, areas::SCOPE_NAME_WORDS, 0, self.names);
            self.names = 0;
            self.scope_base = 0;
        }
    }

    pub fn define_anonymous_local(&mut self)
        ensures { self.new ≡ define_anonymous_c self.old }
    {
        if self.full == 0 {
            self.local_count = self.local_count.wrapping_add(1);
        }
    }

    // The innermost scope's name for the next local.
    fn insert(&mut self, names: &mut [u64], name: u64)
        ensures { naming self.new names.new ≡ insert_c name (naming self.old names.old) }
    {
        let words = [name, self.local_count];
        taking::take(
            names,
            areas::SCOPE_NAMES,
            &mut self.full,
            &mut self.names,
            words,
        );
        self.define_anonymous_local();
    }

    // The local's number, or nothing where the innermost scope has the name.
    #[tactic(auto, unfolding(crate::specs::Scopes::define_c))]
    pub fn define_local(&mut self, names: &mut [u64], name: u64) -> Option<u64>
        ensures { Defines name (naming self.old names.old) (defined result self.new) names.new }
    {
        if self.full != 0 {
            return None;
        }
        let local = self.local_count;
        let known = find_newest(names, self.scope_base, self.names, local, name);
        if known.is_some() {
            return None;
        }
        self.insert(names, name);
        Some(local)
    }
}
