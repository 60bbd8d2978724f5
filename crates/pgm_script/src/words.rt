// Lines cut off a text, words cut off a line, and the numbers that words write.
ghost use Rattle.std.specs.Prelude.{◌≡◌, ◌≢◌, ◌≤◌, ◌<◌, ◌+◌, ◌*◌, ◌^◌, ℕ, [], ◌∷◌, Ok, Err, true};
ghost use Rattle.std.specs.Prelude.{false, not, IfSome, IfNone, length, take, slice_index};
ghost use Rattle.std.specs.Prelude.{MatchResult, SomeIff, IsTrue};
ghost use Rattle.pgm_script.specs.Cuts.{HasDigits, AreEightDigits, ReadsDigits, HasTooGreat};
ghost use Rattle.pgm_script.specs.Cuts.{BeginsWithNumber, BeginsWithout, eight_bytes};
ghost use Rattle.std.specs.Char.{is_ascii_digit};
ghost use Rattle.pgm_script.specs.Words.{is_blank, goes_on, lines_of, words_of};
ghost use Rattle.pgm_script.specs.Scripts.{numbers_of};

use crate::Why;

/// Eight bytes `0`.
const EIGHT_ZEROS: u64 = 0x3030_3030_3030_3030;

/// The first line without its byte 10, and the text after it.
pub(crate) fn cut_line(text: &[u8]) -> (&[u8], &[u8])
    requires { 0 < length text.now }
    ensures lines { lines_of text.now ≡ result.0.now ∷ lines_of result.1.now }
    ensures shorter { length result.1.now < length text.now }
{
    let end = line_len(text);
    if end < text.len() {
        (&text[..end], &text[end + 1..])
    } else {
        (text, &text[end..])
    }
}

/// How many bytes come before the first byte 10.
#[inline]
fn line_len(text: &[u8]) -> usize
    ensures within { result ≤ length text.now }
    ensures before { (k : ℕ) → k < result → slice_index text.now k ≢ 10 }
    ensures found { result < length text.now → slice_index text.now result ≡ 10 }
{
    for (i, byte) in text.iter().enumerate() {
        if *byte == b'\n' {
            return i;
        }
    }
    text.len()
}

/// The first word, which is empty where there is none, and the line after it.
#[inline]
pub(crate) fn cut_word(line: &[u8]) -> (&[u8], &[u8])
    ensures none { length result.0.now ≡ 0 → words_of line.now ≡ [] }
    ensures some { 0 < length result.0.now → words_of line.now
        ≡ result.0.now ∷ words_of result.1.now }
{
    let rest = &line[blank_len(line)..];
    let len = word_len(rest);
    (&rest[..len], &rest[len..])
}

/// How many blanks come first.
#[inline]
fn blank_len(line: &[u8]) -> usize
    ensures within { result ≤ length line.now }
    ensures before { (k : ℕ) → k < result → is_blank (slice_index line.now k) ≡ true }
    ensures found { result < length line.now → is_blank (slice_index line.now result) ≡ false }
{
    for (i, byte) in line.iter().enumerate() {
        if !is_blank(*byte) {
            return i;
        }
    }
    line.len()
}

/// How many bytes come before the first blank.
#[inline]
fn word_len(line: &[u8]) -> usize
    ensures within { result ≤ length line.now }
    ensures before { (k : ℕ) → k < result → is_blank (slice_index line.now k) ≡ false }
    ensures found { result < length line.now → is_blank (slice_index line.now result) ≡ true }
{
    for (i, byte) in line.iter().enumerate() {
        if is_blank(*byte) {
            return i;
        }
    }
    line.len()
}

#[inline]
fn is_blank(byte: u8) -> bool
    ensures { result ≡ is_blank byte }
{
    byte == b' ' || byte == b'\t'
}

/// The numbers of the words of this line, one for each of these greatest values. Past these the
/// list is 0.
pub(crate) fn numbers(line: &[u8], most: &[u64]) -> Result<[u64; 8], Why>
    requires { length most.now ≤ 8 }
    ensures { MatchResult result
        (λ numbers. numbers_of most.now (words_of line.now) ≡ Ok (take (length most.now) numbers))
        (λ why. numbers_of most.now (words_of line.now) ≡ Err why) }
{
    let mut numbers = [0; 8];
    let mut rest = line;
    for i in 0..most.len() {
        let (number, after) = cut_number(rest, most[i])?;
        numbers[i] = number;
        rest = after;
    }
    if blank_len(rest) < rest.len() {
        return Err(Why::Extra);
    }
    Ok(numbers)
}

/// The number of the first word, and the line after it; or that there is no word, or that it is no
/// such number.
#[inline]
fn cut_number(line: &[u8], most: u64) -> Result<(u64, &[u8]), Why>
    ensures { MatchResult result
        (λ cut. BeginsWithNumber most line.now cut.0 cut.1.now)
        (λ why. BeginsWithout most line.now why) }
{
    let rest = &line[blank_len(line)..];
    if rest.is_empty() {
        return Err(Why::Missing);
    }
    let Some((value, len)) = digits(rest) else {
        return Err(Why::Number);
    };
    let after = &rest[len..];
    if value > most {
        return Err(Why::Number);
    }
    if !is_divided(after) {
        return Err(Why::Number);
    }
    Ok((value, after))
}

/// Whether a word ends here.
#[inline]
fn is_divided(line: &[u8]) -> bool
    ensures { result ≡ not (goes_on line.now) }
{
    line.is_empty() || is_blank(line[0])
}

/// The number that the first digits write and how many they are, where it is below 2^64. The first
/// sixteen always fit, so they are taken eight at a time where they are there.
#[inline]
pub(crate) fn digits(line: &[u8]) -> Option<(u64, usize)>
    ensures some { IfSome result (λ read. ReadsDigits line.now read.1 read.0) }
    ensures none { IfNone result (HasTooGreat line.now) }
{
    if !has_eight_digits(line, 0) {
        return digits_from(line, 0, 0);
    }
    let first = eight_digits(line, 0);
    if !has_eight_digits(line, 8) {
        return digits_from(line, 8, first);
    }
    digits_from(line, 16, first * 100_000_000 + eight_digits(line, 8))
}

/// The number of a line's digits, of which the first, so many, write this number.
#[inline]
fn digits_from(line: &[u8], from: usize, number: u64) -> Option<(u64, usize)>
    requires within { from ≤ length line.now }
    requires so_far { HasDigits line.now from number }
    ensures some { IfSome result (λ read. ReadsDigits line.now read.1 read.0) }
    ensures none { IfNone result (HasTooGreat line.now) }
{
    let mut value = number;
    for i in from..line.len() {
        let byte = line[i];
        if !byte.is_ascii_digit() {
            return Some((value, i));
        }
        value = pushed(value, byte - b'0')?;
    }
    Some((value, line.len()))
}

/// Whether eight digits stand from this place on.
#[inline]
fn has_eight_digits(line: &[u8], at: usize) -> bool
    requires { at ≤ 8 }
    ensures { IsTrue result → AreEightDigits line.now at }
{
    if line.len() < at + 8 {
        return false;
    }
    let mut all = true;
    for i in at..at + 8 {
        all &= line[i].is_ascii_digit();
    }
    all
}

/// The number that they write. The eight bytes are taken as one number, less a `0` from each; in
/// every second byte of ten times that and the same a byte on stand the numbers of pairs of digits.
#[inline]
fn eight_digits(line: &[u8], at: usize) -> u64
    requires few { at ≤ 8 }
    requires eight { AreEightDigits line.now at }
    ensures digits { (number : ℕ) → HasDigits line.now at number →
        HasDigits line.now (at + 8) (number * 100000000 + result) }
    ensures small { result < 100000000 }
{
    let digits = eight_bytes(line, at) - EIGHT_ZEROS;
    let pairs = digits * 10 + (digits >> 8);
    let first = pairs % 256 * 100 + (pairs >> 16) % 256;
    let second = (pairs >> 32) % 256 * 100 + (pairs >> 48) % 256;
    first * 10_000 + second
}

/// The eight bytes from this place on as one number, the first the lowest.
#[inline]
fn eight_bytes(line: &[u8], at: usize) -> u64
    requires few { at ≤ 8 }
    requires within { at + 8 ≤ length line.now }
    ensures { result ≡ eight_bytes line.now at }
{
    u64::from_le_bytes([
        line[at],
        line[at + 1],
        line[at + 2],
        line[at + 3],
        line[at + 4],
        line[at + 5],
        line[at + 6],
        line[at + 7],
    ])
}

/// The number with one more digit, where it fits.
#[inline]
fn pushed(value: u64, digit: u8) -> Option<u64>
    requires { digit < 10 }
    ensures { SomeIff result (value * 10 + digit < 2 ^ 64) (value * 10 + digit) }
{
    value.checked_mul(10)?.checked_add(u64::from(digit))
}
