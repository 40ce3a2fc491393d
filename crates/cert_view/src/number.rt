//! Numbers as a certificate spells them.
ghost use Rattle.std.specs.Prelude.{◌≡◌, ◌^◌, ◌+◌, ◌≤◌, ◌↔◌, true, IsTrue, length, min, take, option_map, IfSome};
ghost use Rattle.std.specs.Char.{is_ascii_digit};
ghost use Rattle.std.specs.List.{list_all, prefix_len};
ghost use Rattle.cert_view.specs.Number.{digits_value, is_number, with_digit, without_sign};
ghost use Rattle.cert_view.specs.Numbers.{IsSpaced, after_word, first_word};
ghost use Rattle.cert_view.specs.Reading.{front_len, number_of, read_number};

// The greatest absolute value of a number: 2 to the 62nd.
const LIMIT: u64 = 1 << 62;

// A number that a word spells.
#[derive(Clone, Copy)]
pub(crate) enum Number {
    Within(i64),
    Beyond,
}

// The number that the first word spells, if it spells one, and what stands from the space on that ends it.
#[tactic(auto, unfolding(crate::specs::Reading::read_number))]
pub(crate) fn front_number(bytes: &[u8]) -> Option<(Number, &[u8])>
    ensures number { option_map (λ r. r.0) result ≡ read_number (first_word bytes.now) }
    ensures after { IfSome result (λ r. r.1.now ≡ after_word bytes.now) }
{
    let (value, end) = front_value(bytes);
    let (word, after) = bytes.split_at(end);
    if !is_spaced(after) {
        return None;
    }
    if !is_well_begun(word) {
        return None;
    }
    Some((number_of(word, value), after))
}

// What the digits behind an optional `-` at the front write, or one more than the limit where it is beyond it, and
// where they end.
fn front_value(bytes: &[u8]) -> (u64, usize)
    ensures value { result.0 ≡ min (digits_value (without_sign (take result.1 bytes.now))) (2 ^ 62 + 1) }
    ensures digits { list_all is_ascii_digit (without_sign (take result.1 bytes.now)) ≡ true }
    ensures end { result.1 ≡ front_len bytes.now }
    ensures within { result.1 ≤ length bytes.now }
{
    let unsigned = without_sign(bytes);
    let (value, len) = front_digits(unsigned);
    (value, bytes.len() - unsigned.len() + len)
}

// What the digits at the front write, or one more than the limit where it is beyond it, and how many they are.
fn front_digits(bytes: &[u8]) -> (u64, usize)
    ensures value { result.0 ≡ min (digits_value (take result.1 bytes.now)) (2 ^ 62 + 1) }
    ensures len { result.1 ≡ prefix_len is_ascii_digit bytes.now }
{
    let mut value = 0;
    for (i, byte) in bytes.iter().enumerate() {
        if !byte.is_ascii_digit() {
            return (value, i);
        }
        value = with_digit(value, *byte);
    }
    (value, bytes.len())
}

// A value with one more digit at its end, or one more than the limit where it is beyond it.
fn with_digit(value: u64, digit: u8) -> u64
    requires value { value ≤ 2 ^ 62 + 1 }
    requires digit { is_ascii_digit digit ≡ true }
    ensures { result ≡ min (with_digit value digit) (2 ^ 62 + 1) }
{
    if value > LIMIT / 10 {
        return LIMIT + 1;
    }
    (value * 10 + (digit - b'0') as u64).min(LIMIT + 1)
}

// What stands after a `-`, or all.
fn without_sign(bytes: &[u8]) -> &[u8]
    ensures { result.now ≡ without_sign bytes.now }
{
    if !bytes.is_empty() && bytes[0] == b'-' {
        &bytes[1..]
    } else {
        bytes
    }
}

// Whether there is nothing, or a space first.
fn is_spaced(bytes: &[u8]) -> bool
    ensures { IsTrue result ↔ IsSpaced bytes.now }
{
    bytes.is_empty() || bytes[0] == b' '
}

// Whether a word of digits behind an optional `-` is a number.
fn is_well_begun(word: &[u8]) -> bool
    requires { list_all is_ascii_digit (without_sign word.now) ≡ true }
    ensures { result ≡ is_number word.now }
{
    let digits = without_sign(word);
    (!digits.is_empty() && digits[0] != b'0') || word == b"0".as_slice()
}

// The number of a word, from what its digits write.
fn number_of(word: &[u8], value: u64) -> Number
    requires value { value ≡ min (digits_value (without_sign word.now)) (2 ^ 62 + 1) }
    ensures { result ≡ number_of word.now }
{
    if value > LIMIT {
        Number::Beyond
    } else if !word.is_empty() && word[0] == b'-' {
        Number::Within(-(value as i64))
    } else {
        Number::Within(value as i64)
    }
}
