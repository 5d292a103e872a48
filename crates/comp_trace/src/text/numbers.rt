//! Reads the numbers in a text.
ghost use Rattle.std.specs.Prelude.{◌≡◌, ◌<◌, ◌≤◌, ℕ, List, [], ◌∷◌, true, false, None, Some, length, slice_index, take, option_map, IfNone, IfSome, if◌then◌else◌, nat_le};
ghost use Rattle.std.specs.List.{list_all};
ghost use Rattle.std.specs.Char.{is_ascii_digit};
ghost use Rattle.std.specs.Str.Parse.{digits_value};
ghost use Rattle.comp_trace.specs.Grammar as grammar;
ghost use Rattle.comp_trace.specs.Grammar.{clipped, number_of};
ghost use Rattle.comp_trace.specs.Fronts.{size, HasNone, NumberBefore, ReadsNumbers};

/// A number of a text. All numbers that do not fit 64 bits are `Large`: they are above every bound.
#[derive(Clone, Copy)]
pub(crate) enum Number {
    Small(u64),
    Large,
}

/// The number, if it is below a bound.
pub(crate) fn below(number: Number, bound: u64) -> Option<u64>
    ensures { result ≡ (if nat_le bound (size number) then None else Some (size number)) }
{
    match number {
        Number::Small(n) => { if n < bound { Some(n) } else { None } }
        Number::Large => None,
    }
}

// Every number of this many digits fits 64 bits.
const DIGITS: usize = 19;

// The digits at the front of a text: how many there are, and the value of the first 19.
#[derive(Clone, Copy)]
struct Digits {
    count: usize,
    value: u64,
}

// Reads all digits at the front of a text.
#[inline(always)]
fn front_digits(text: &[u8]) -> Digits
    ensures within { result.count ≤ length text.now }
    ensures are { list_all is_ascii_digit (take result.count text.now) ≡ true }
    ensures ends { result.count < length text.now → is_ascii_digit (slice_index text.now result.count) ≡ false }
    ensures value { result.count ≤ 19 → result.value ≡ digits_value 10 (take result.count text.now) }
{
    let mut count = 0;
    let mut value = 0;
    for byte in text {
        if !byte.is_ascii_digit() {
            return Digits { count, value };
        }
        if count < DIGITS {
            value = value * 10 + u64::from(*byte - b'0');
        }
        count += 1;
    }
    Digits { count, value }
}

// Whether digits are a number: the first digit is not 0, or it is the only one.
#[inline(always)]
fn is_number(digits: &[u8]) -> bool
    requires { list_all is_ascii_digit digits.now ≡ true }
    ensures { result ≡ grammar.is_number digits.now }
{
    let [first, ..] = digits else {
        return false;
    };
    *first > b'0' || digits.len() == 1
}

// The number that these digits write, however many there are.
#[inline(never)]
fn long_number(digits: &[u8]) -> Number
    requires { grammar.is_number digits.now ≡ true }
    ensures { Some (size result) ≡ option_map clipped (number_of digits.now) }
{
    match str::from_utf8(digits) {
        Ok(digits) => match digits.parse() {
            Ok(n) => Number::Small(n),
            Err(_) => Number::Large,
        },
        Err(_) => unreachable!(),
    }
}

// The number that these digits write, if they are a number. `value` is its value if there are at most 19 digits.
#[inline(always)]
fn number_in(digits: &[u8], value: u64) -> Option<Number>
    requires are { list_all is_ascii_digit digits.now ≡ true }
    requires value { length digits.now ≤ 19 → value ≡ digits_value 10 digits.now }
    ensures { option_map size result ≡ option_map clipped (number_of digits.now) }
{
    if !is_number(digits) {
        return None;
    }
    if digits.len() <= DIGITS {
        return Some(Number::Small(value));
    }
    Some(long_number(digits))
}

/// Reads the number at the front of a text, before this byte, which must not be a digit. Answers the number and the
/// text after the byte.
#[inline(always)]
pub(crate) fn number_before(text: &[u8], byte: u8) -> Option<(Number, &[u8])>
    requires { is_ascii_digit byte ≡ false }
    ensures some { IfSome result (λ read. (n : ℕ) × (size read.0 ≡ clipped n) × NumberBefore byte text.now n read.1.now) }
    ensures none { IfNone result ((n : ℕ) (rest : List ℕ) → NumberBefore byte text.now n rest → ⊥) }
{
    let Digits { count, value } = front_digits(text);
    if count == text.len() {
        return None;
    }
    if text[count] != byte {
        return None;
    }
    let Some(number) = number_in(&text[..count], value) else {
        return None;
    };
    Some((number, &text[count + 1..]))
}

/// Reads the one number of a line. Answers it and the text after the line.
#[inline(always)]
pub(crate) fn one_number(text: &[u8]) -> Option<(Number, &[u8])>
    ensures some { IfSome result (λ read. ReadsNumbers text.now (size read.0 ∷ []) read.1.now) }
    ensures none { IfNone result (HasNone 1 text.now) }
{
    let Some((number, rest)) = number_before(text, b'\n') else {
        return None;
    };
    Some((number, rest))
}

/// Reads the two numbers of a line, with a blank between them. Answers them and the text after the line.
#[inline(always)]
pub(crate) fn two_numbers(text: &[u8]) -> Option<(Number, Number, &[u8])>
    ensures some { IfSome result (λ read. ReadsNumbers text.now (size read.0 ∷ size read.1 ∷ []) read.2.now) }
    ensures none { IfNone result (HasNone 2 text.now) }
{
    let Some((first, rest)) = number_before(text, b' ') else {
        return None;
    };
    let Some((second, rest)) = one_number(rest) else {
        return None;
    };
    Some((first, second, rest))
}

/// Like `two_numbers`, for three numbers.
#[inline(always)]
pub(crate) fn three_numbers(text: &[u8]) -> Option<(Number, Number, Number, &[u8])>
    ensures some { IfSome result (λ read. ReadsNumbers text.now (size read.0 ∷ size read.1 ∷ size read.2 ∷ []) read.3.now) }
    ensures none { IfNone result (HasNone 3 text.now) }
{
    let Some((first, rest)) = number_before(text, b' ') else {
        return None;
    };
    let Some((second, third, rest)) = two_numbers(rest) else {
        return None;
    };
    Some((first, second, third, rest))
}

/// Like `two_numbers`, for four numbers.
#[inline(always)]
pub(crate) fn four_numbers(text: &[u8]) -> Option<(Number, Number, Number, Number, &[u8])>
    ensures some { IfSome result (λ read. ReadsNumbers text.now (size read.0 ∷ size read.1 ∷ size read.2 ∷ size read.3 ∷ []) read.4.now) }
    ensures none { IfNone result (HasNone 4 text.now) }
{
    let Some((first, rest)) = number_before(text, b' ') else {
        return None;
    };
    let Some((second, third, fourth, rest)) = three_numbers(rest) else {
        return None;
    };
    Some((first, second, third, fourth, rest))
}

/// Like `two_numbers`, for five numbers.
#[inline(never)]
pub(crate) fn five_numbers(text: &[u8]) -> Option<(Number, Number, Number, Number, Number, &[u8])>
    ensures some { IfSome result (λ read. ReadsNumbers text.now (size read.0 ∷ size read.1 ∷ size read.2 ∷ size read.3 ∷ size read.4 ∷ []) read.5.now) }
    ensures none { IfNone result (HasNone 5 text.now) }
{
    let Some((first, rest)) = number_before(text, b' ') else {
        return None;
    };
    let Some((second, third, fourth, fifth, rest)) = four_numbers(rest) else {
        return None;
    };
    Some((first, second, third, fourth, fifth, rest))
}
