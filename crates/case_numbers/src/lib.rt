// Lines and words in base ten, for the programs that replay stored cases.
#![tactic(auto)]

ghost use Rattle.std.specs.Prelude.{◌+◌, ◌≤◌, ◌≡◌, cond, ◌&&◌, [], ◌∷◌, length, take, drop, set, ltb, is_some, unwrap_or};
ghost use Rattle.case_numbers.specs.Places.{place_from};
ghost use Rattle.case_numbers.specs.Texts.{is_same};
ghost use Rattle.case_numbers.specs.Numbers.{longer_by, Parsed};
ghost use Rattle.words.specs.Reply.{area_totals};

use words::reply::Totals;

// The first place of a byte in a text, from a place on; the text's end where there is none.
#[tactic(auto, using(crate::proofs::Places::place_here, crate::proofs::Places::place_next))]
pub fn find(text: &[u8], from: usize, byte: u8) -> usize
    ensures { result ≡ place_from byte from text.now }
{
    for i in from..text.len() {
        if text[i] == byte {
            return i;
        }
    }
    text.len()
}

// Whether two texts are the same.
#[tactic(auto, using(crate::proofs::Texts::same_by_test))]
pub fn same(text: &[u8], other: &[u8]) -> bool
    ensures { result ≡ is_same text.now other.now }
{
    text == other
}

// A number with one digit more; the greatest word where it has no place.
fn longer(number: u64, digit: u64) -> u64
    requires { digit ≤ 9 }
    ensures { result ≡ longer_by number digit }
{
    // One comparison at nearly every digit.
    if number < u64::MAX / 10 {
        return number * 10 + digit;
    }
    number.saturating_mul(10).saturating_add(digit)
}

// Puts a number, if there is one, behind the first `count` words, where there is room, and answers how many words are read now.
fn put(words: &mut [u64], count: usize, number: Option<u64>) -> usize
    ensures { (result ≡ cond (is_some number && ltb count (length words.old)) (count + 1) count)
        × (words.new ≡ cond (is_some number && ltb count (length words.old)) (set words.old count (unwrap_or number 0)) words.old) }
{
    if let Some(number) = number {
        if count < words.len() {
            words[count] = number;
            return count + 1;
        }
    }
    count
}

// Reads the numbers of a text into words, as many as there is room for, and answers how many.
pub fn parse(text: &[u8], words: &mut [u64]) -> usize
    ensures { Parsed text.now words.old words.new result }
{
    let mut count = 0;
    let mut number = None;
    for byte in text {
        if byte.is_ascii_digit() {
            number = Some(longer(number.unwrap_or(0), (*byte - b'0') as u64));
        } else if number.is_some() {
            count = put(words, count, number);
            number = None;
        }
    }
    put(words, count, number)
}

// The totals of a program as cases have them: the twelve areas' in their order, the entry point, the global dependencies and the bundles.
pub fn totals_of(numbers: &[u64; 15]) -> Totals
    ensures areas { area_totals result ≡ 0 ∷ take 12 numbers.now }
    ensures others { result.entry_point ∷ result.global_dependencies ∷ result.bundles ∷ [] ≡ drop 12 numbers.now }
{
    Totals {
        code: numbers[0],
        constants: numbers[1],
        functions: numbers[2],
        models: numbers[3],
        properties: numbers[4],
        methods: numbers[5],
        context_locals: numbers[6],
        public_names: numbers[7],
        scope_names: numbers[8],
        breaks: numbers[9],
        errors: numbers[10],
        books: numbers[11],
        entry_point: numbers[12],
        global_dependencies: numbers[13],
        bundles: numbers[14],
    }
}
