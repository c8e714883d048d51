// A lent table of slots over the pool. A slot holds 0, or a constant's number and one; a constant is looked for from its home slot on, round the end.
ghost use Rattle.std.specs.Prelude.{◌≡◌, ◌≤◌, ◌<◌, length, replicate, unwrap_or, IfSome};
ghost use Rattle.words.specs.Object.{constant_of};
ghost use Rattle.constant_slots.specs.Home as homes;
ghost use Rattle.constant_slots.specs.Plain.{pool_of};
ghost use Rattle.constant_slots.specs.Slots as table;

use crate::plain::{self, ConstantWords};
use words::object;

// The primes of a float's home.
const FIRST_PRIME: u64 = 3162277669;

const SECOND_PRIME: u64 = 2718281831;

const LAST_PRIME: u64 = 4294967291;

// What a search answers: the constant's number, and how many slots were looked at; 0 where the plain search answered.
#[derive(Clone, Copy)]
pub struct Looked {
    pub found: Option<u64>,
    pub looked: usize,
}

// Zeros that the bits of a float end with, at least, where it is round among n slots.
fn round_zeros(n: usize) -> u32
    ensures { result ≡ homes.round_zeros n }
{
    (u64::leading_zeros(n as u64) + 54) % 64
}

// The number of a float in the row of those that are round among n slots; of any other its bits, folded.
fn float_value(n: usize, bits: u64) -> u64
    ensures { result ≡ homes.float_value n bits }
{
    let zeros = round_zeros(n);
    let number = bits >> zeros;
    if number << zeros == bits {
        return number;
    }
    bits % FIRST_PRIME * (bits % SECOND_PRIME) % LAST_PRIME
}

// What of a constant is spread over n slots.
fn spread_value(n: usize, constant: ConstantWords) -> usize
    requires { 0 < n }
    ensures { result ≡ homes.spread_value n (constant_of constant.kind constant.value) }
{
    if constant.kind == object::FLOAT {
        return float_value(n, constant.value) as usize % ((n - 1) / 2 * 2 + 1);
    }
    constant.value as usize % n
}

// How far apart the homes of neighbours are. A loop over the five primes is no plainer: it needs an invariant.
fn stride(n: usize) -> usize
    ensures { result ≡ homes.stride n }
{
    if n % 13 != 0 {
        return 13;
    }
    if n % 11 != 0 {
        return 11;
    }
    if n % 7 != 0 {
        return 7;
    }
    if n % 5 != 0 {
        return 5;
    }
    if n % 3 != 0 {
        return 3;
    }
    1
}

// The home slot of a constant among n.
#[tactic(auto, using(crate::proofs::SlotWays::home_steps), unfolding(crate::specs::Home::home))]
fn home(n: usize, constant: ConstantWords) -> usize
    requires n_nonzero { 0 < n }
    requires n_bound { n ≤ 1152921504606846976 }
    ensures is { result ≡ homes.home n (constant_of constant.kind constant.value) }
    ensures below { result < n }
{
    let spread = spread_value(n, constant);
    let apart = stride(n);
    (spread * apart + constant.kind as usize % 8 * (n / 8)) % n
}

// The slot after slot p.
fn after(n: usize, p: usize) -> usize
    requires { p < n }
    ensures { result ≡ table.after n p }
{
    if p + 1 < n {
        return p + 1;
    }
    0
}

// From a slot on, round the end, to the first that is empty or has the constant.
#[tactic(auto, using(crate::proofs::SlotWays::look_steps))]
fn look(
    constants: &[u64],
    count: usize,
    slots: &[u64],
    from: usize,
    constant: ConstantWords,
) -> Looked
    requires { from < length slots.now }
    ensures { result ≡ table.looked_of (table.look (table.is_in_pool count (constant_of constant.kind constant.value) constants.now)
        (length slots.now) (length slots.now) slots.now from 0) }
{
    let mut at = from;
    for before in 0..slots.len() {
        let there = slots[at];
        let looked = before + 1;
        if there == 0 {
            return Looked {
                found: None,
                looked,
            };
        }
        if has(constants, count, there - 1, constant) {
            return Looked {
                found: Some(there - 1),
                looked,
            };
        }
        at = after(slots.len(), at);
    }
    Looked {
        found: None,
        looked: slots.len(),
    }
}

// Whether a number is in the pool and has the constant.
fn has(constants: &[u64], count: usize, number: u64, constant: ConstantWords) -> bool
    ensures { result ≡ table.is_in_pool count (constant_of constant.kind constant.value) constants.now number }
{
    let i = number as usize;
    i < count && plain::same_constant(constants, i, constant)
}

// The search: through the slots where there are more of them than constants, else the plain one.
pub fn find(constants: &[u64], count: usize, slots: &[u64], constant: ConstantWords) -> Looked
    ensures { result ≡ table.looked_of (table.search_slots count (constant_of constant.kind constant.value) constants.now slots.now) }
{
    if slots.len() <= count {
        let found = plain::find(constants, count, constant);
        return Looked { found, looked: 0 };
    }
    let from = home(slots.len(), constant);
    look(constants, count, slots, from, constant)
}

// The first empty slot from a slot on, round the end.
#[tactic(auto, using(crate::proofs::SlotWays::empty_steps))]
fn first_empty(slots: &[u64], from: usize) -> Option<usize>
    requires { from < length slots.now }
    ensures in_bounds { IfSome result (λ p. p < length slots.now) }
    ensures is { unwrap_or result (length slots.now) ≡ table.first_empty (length slots.now) (length slots.now) slots.now from }
{
    let mut at = from;
    for looked in 0..slots.len() {
        if slots[at] == 0 {
            return Some(at);
        }
        at = after(slots.len(), at);
    }
    None
}

// A constant of a number takes its slot; none where all are taken. A slot holds the number and one, which the greatest word has not.
pub fn put(slots: &mut [u64], number: u64, constant: ConstantWords)
    ensures { slots.new ≡ table.put_number slots.old number (constant_of constant.kind constant.value) }
{
    let Some(held) = number.checked_add(1) else {
        return;
    };
    if slots.is_empty() {
        return;
    }
    let from = home(slots.len(), constant);
    if let Some(p) = first_empty(slots, from) {
        slots[p] = held;
    }
}

// Every slot empty.
pub fn clear(slots: &mut [u64])
    ensures { slots.new ≡ replicate (length slots.old) 0 }
{
    slots.fill(0);
}

// The slots filled anew with the constants in use, in order. Once every slot is taken no constant takes one.
pub fn fill(constants: &[u64], count: usize, slots: &mut [u64])
    ensures { slots.new ≡ table.slots_of (length slots.old) (pool_of count constants.now) }
{
    clear(slots);
    for i in 0..count.min(slots.len()) {
        put(slots, i as u64, plain::constant_at(constants, i));
    }
}
