// Right-justified numbers in fields of any width, signed or not: one pair, `read_number` and `write_number`. A signed number is an `i64`, read and
// written negated, digit by digit, so that the smallest is exact (01, 'Forms by place in the code').
ghost use Rattle.std.specs.Prelude.{◌≡◌, ℕ, Bool, Some, None, true, false, ◌+◌, ◌*◌, ◌/◌, ◌%◌, ◌≤◌, ◌<◌, length, nat_abs, neg_ℤ, pos, eqb, not, MatchOption};
ghost use Rattle.std.specs.List.{position};
ghost use Rattle.column_lines.specs.Numeral.{least_size, negative_of, digits_from, word_of, number_from, read_numeral, Wrote};
ghost use Rattle.column_lines.specs.Spelling.{size_of, Spelt, Led};

use words::object::{integer_of_word, word_of_integer};

pub const BLANK: u8 = b' ';

pub const MINUS: u8 = b'-';

const ZERO: u8 = b'0';

// A negative number does not begin with it: -0 is off the form.
const NO_FIRST_DIGIT: u8 = b'0';

// A signed word from here on is negative: 2^63.
const NEGATIVE_WORDS: u64 = 9223372036854775808;

// How a number is held while it is read or written digit by digit: a word as it is, and a negative integer as it is, so that the smallest is exact.
trait Digits: Copy {
    // The number without its sign, and that it is held so.
    ghost size: { Self → ℕ };

    ghost IsHeld: { Self → Type 0 };

    ghost most: { ℕ };

    fn zero() -> Self
        ensures held { IsHeld result }
        ensures size { size result ≡ 0 };

    // One digit more; none past the largest.
    fn with_digit(self, digit: u8) -> Option<Self>
        requires held { IsHeld self }
        requires digit { digit ≤ 9 }
        ensures { MatchOption result (most < size self * 10 + digit) (λ n. IsHeld n × (size n ≡ size self * 10 + digit)) };

    fn last_digit(self) -> u8
        requires { IsHeld self }
        ensures { result ≡ size self % 10 };

    // What is left without the last digit; none where that was the only one.
    fn without_last(self) -> Option<Self>
        requires { IsHeld self }
        ensures { MatchOption result (size self / 10 ≡ 0) (λ n. IsHeld n × (size n ≡ size self / 10) × (0 < size n)) };
}

impl Digits for u64 {
    ghost size = { λ n. n };

    ghost IsHeld = { λ n. Unit {0} };

    ghost most = { 18446744073709551615 };

    fn zero() -> u64 {
        0
    }

    // Below a tenth of the greatest there is room for any digit: one comparison at nearly every digit, where the checked steps take two tests.
    fn with_digit(self, digit: u8) -> Option<u64> {
        if self < u64::MAX / 10 {
            return Some(self * 10 + u64::from(digit));
        }
        self.checked_mul(10)?.checked_add(u64::from(digit))
    }

    fn last_digit(self) -> u8 {
        (self % 10) as u8
    }

    fn without_last(self) -> Option<u64> {
        let rest = self / 10;
        if rest == 0 { None } else { Some(rest) }
    }
}

impl Digits for i64 {
    ghost size = { λ n. nat_abs n };

    ghost IsHeld = { λ n. (n ≡ neg_ℤ (pos (nat_abs n))) × (nat_abs n ≤ least_size) };

    ghost most = { least_size };

    fn zero() -> i64 {
        0
    }

    fn with_digit(self, digit: u8) -> Option<i64> {
        if self > i64::MIN / 10 {
            return Some(self * 10 - i64::from(digit));
        }
        self.checked_mul(10)?.checked_sub(i64::from(digit))
    }

    fn last_digit(self) -> u8 {
        (0 - self % 10) as u8
    }

    fn without_last(self) -> Option<i64> {
        let rest = self / 10;
        if rest == 0 { None } else { Some(rest) }
    }
}

// The digits of a number, none where one is no digit or the number is too large.
fn read_digits<N: Digits>(digits: &[u8]) -> Option<N>
    ensures { MatchOption result ((s g : Bool) → size_of s g ≤ N.most → digits_from s g 0 digits.now ≡ None)
        (λ n. N.IsHeld n × ((s g : Bool) → digits_from s g 0 digits.now ≡ word_of s g (N.size n))) }
{
    let mut number = N::zero();
    for b in digits {
        if !b.is_ascii_digit() {
            return None;
        }
        number = number.with_digit(*b - ZERO)?;
    }
    Some(number)
}

// A number without a sign. Of those that begin with 0 there is 0 alone.
fn read_natural(bytes: &[u8], signed: bool) -> Option<u64>
    ensures { result ≡ number_from signed false bytes.now }
{
    if bytes.is_empty() {
        return None;
    }
    if bytes[0] == ZERO {
        return if bytes.len() == 1 { Some(0) } else { None };
    }
    let word = read_digits(bytes)?;
    let most = if signed { i64::MAX as u64 } else { u64::MAX };
    (word <= most).then_some(word)
}

// The digits after a sign.
fn read_negative(bytes: &[u8]) -> Option<u64>
    ensures { result ≡ number_from true true bytes.now }
{
    if bytes.is_empty() || bytes[0] == NO_FIRST_DIGIT {
        return None;
    }
    let integer = read_digits(bytes)?;
    Some(word_of_integer(integer))
}

// The place of the first byte that is no blank.
fn after_blanks(bytes: &[u8]) -> Option<usize>
    ensures { result ≡ position (λ b. not (eqb b 32)) bytes.now }
{
    bytes.iter().position(|b| *b != BLANK)
}

// Reads a field.
pub fn read_number(bytes: &[u8], signed: bool) -> Option<u64>
    ensures { result ≡ read_numeral signed bytes.now }
{
    let first = after_blanks(bytes)?;
    if signed && bytes[first] == MINUS {
        return read_negative(&bytes[first + 1..]);
    }
    read_natural(&bytes[first..], signed)
}

// Writes what stands before the digits: blanks, the last of them a sign where the number is negative. False where the sign has no place.
fn write_lead(out: &mut [u8], negative: bool) -> bool
    ensures { Led negative (length out.old) out.old out.new result }
{
    out.fill(BLANK);
    if !negative {
        return true;
    }
    let Some(last) = out.last_mut() else {
        return false;
    };
    *last = MINUS;
    true
}

// Writes a number's digits, from the last on, and what stands before them; false where they have no place, and the last of them are written.
fn write_digits<N: Digits>(out: &mut [u8], number: N, negative: bool) -> bool
    requires { N.IsHeld number }
    ensures { Spelt negative (N.size number) out.old out.new result }
{
    let mut rest = number;
    for k in (0..out.len()).rev() {
        out[k] = ZERO + rest.last_digit();
        let Some(more) = rest.without_last() else {
            return write_lead(&mut out[..k], negative);
        };
        rest = more;
    }
    false
}

// The word stands for a negative integer.
fn is_negative(word: u64, signed: bool) -> bool
    ensures { result ≡ negative_of signed word }
{
    signed && word >= NEGATIVE_WORDS
}

// Writes a word to a field, right-justified; false where it is wider, and the field then has its last bytes. The answer stays a `bool`:
// the clause of `write_number` speaks of it as one, and there is nothing that an error could say beside it.
pub fn write_number(out: &mut [u8], word: u64, signed: bool) -> bool
    ensures { Wrote signed word out.old out.new result }
{
    if is_negative(word, signed) {
        write_digits(out, integer_of_word(word), true)
    } else {
        write_digits(out, word, false)
    }
}
