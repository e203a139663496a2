//! Words of a line, and what each of them spells.

ghost use Rattle.std.specs.Prelude.{◌≡◌, ◌<◌, ◌≤◌, ◌≢◌, ℕ, Some, length, slice_index, take, filter, true, [], ◌∷◌, ◌+◌, ◌++◌, IfOk, OnOk, IfErr, IfSome, IfNone};
ghost use Rattle.usb_script_words.specs.declared.line_error.LineError.TheVariants.{Memory};
ghost use Rattle.usb_script_words.specs.Fields.{texts};
ghost use Rattle.std.specs.List.{list_all};
ghost use Rattle.std.specs.Str.{bytes_eq};
ghost use Rattle.hex.specs.Hex.{hex_digit_value};
ghost use Rattle.usb_script_words.specs.Lines.{words_of, is_word, is_printable, is_skipped, behind_end, IsFirstSplit};
ghost use Rattle.usb_script_words.specs.Outcome.{Gives};
ghost use Rattle.usb_script_words.specs.Words.{digits_after, decimal_of, number_of, number_between, has_leading_zero, hex_byte_of, hex_word_of, errno_of, call_of};
ghost use Rattle.usb_kernel_devices.specs.Errnos.{IsErrno};

use crate::line_error::LineError;
use usb_kernel::KernelCall;

/// The latest time, and the longest that a call waits but for `max`, in nanoseconds.
pub const MAX_TIME: u64 = 1_000_000_000_000_000_000;

/// Whether a word reads so. The compiler knows the length and the letters of a text, and compares them in line.
#[inline(always)]
pub fn reads(word: &[u8], text: &[u8]) -> bool
    ensures value { result ≡ bytes_eq word.now text.now }
{
    if word.len() != text.len() {
        return false;
    }
    for i in 0..text.len() {
        if word[i] != text[i] {
            return false;
        }
    }
    true
}

/// The line without the spaces before its first word.
pub fn skip_spaces(line: &[u8]) -> &[u8]
    ensures words { words_of result.now ≡ words_of line.now }
    ensures skipped { is_skipped result.now ≡ is_skipped line.now }
    ensures first { 0 < length result.now → slice_index result.now 0 ≢ 32 }
    ensures within { length result.now ≤ length line.now }
{
    let mut rest = line;
    while let [b' ', after @ ..] = rest {
        rest = after;
    }
    rest
}

/// Whether the line is a comment, a line of spaces or an empty one.
pub fn is_skipped(line: &[u8]) -> bool
    ensures value { result ≡ is_skipped line.now }
{
    matches!(skip_spaces(line), [] | [b'#', ..])
}

/// The length of the word at the front.
fn word_len(line: &[u8]) -> usize
    ensures within { result ≤ length line.now }
    ensures before { (k : ℕ) → k < result → slice_index line.now k ≢ 32 }
    ensures end { result < length line.now → slice_index line.now result ≡ 32 }
{
    for (i, b) in line.iter().enumerate() {
        if *b == b' ' {
            return i;
        }
    }
    line.len()
}

/// The first word of a line, and what follows it.
fn next_word(line: &[u8]) -> Option<(&[u8], &[u8])>
    ensures some { IfSome result (λ x. words_of line.now ≡ x.0.now ∷ words_of x.1.now) }
    ensures none { IfNone result (words_of line.now ≡ []) }
    ensures shorter { IfSome result (λ x. length x.1.now < length line.now) }
{
    let rest = skip_spaces(line);
    if rest.is_empty() {
        return None;
    }
    let len = word_len(rest);
    Some(rest.split_at(len))
}

/// The words of a line, in place of those that are there.
pub fn split_words<'a>(line: &'a [u8], words: &mut Vec<&'a [u8]>) -> Result<(), LineError>
    ensures value { OnOk result (texts words.new.items ≡ words_of line.now) }
    ensures few { OnOk result (length words.new.items ≤ length line.now) }
    ensures only { IfErr result (λ e. e ≡ Memory) }
{
    words.clear();
    let mut rest = line;
    while let Some((word, after)) = next_word(rest) {
        words.push(word)?;
        rest = after;
    }
    Ok(())
}

/// Adds these bytes as a word, where there are any.
fn push_word<'a>(words: &mut Vec<&'a [u8]>, word: &'a [u8]) -> Result<(), LineError>
    ensures value { OnOk result
        (texts words.new.items ≡ texts words.old.items ++ filter is_word (word.now ∷ [])) }
    ensures few { OnOk result
        (length words.new.items ≤ length words.old.items + length word.now) }
    ensures only { IfErr result (λ e. e ≡ Memory) }
{
    if !word.is_empty() {
        words.push(word)?;
    }
    Ok(())
}

/// The words of the bytes at the front that a line may hold, in place of those that are there, and how many these bytes
/// are.
fn split_printable<'a>(bytes: &'a [u8], words: &mut Vec<&'a [u8]>) -> Result<usize, LineError>
    ensures within { IfOk result (λ n. n ≤ length bytes.now) }
    ensures printable { IfOk result (λ n. list_all is_printable (take n bytes.now) ≡ true) }
    ensures value { IfOk result (λ n. texts words.new.items ≡ words_of (take n bytes.now)) }
    ensures few { IfOk result (λ n. length words.new.items ≤ n) }
    ensures only { IfErr result (λ e. e ≡ Memory) }
{
    words.clear();
    let mut start = 0usize;
    for (i, b) in bytes.iter().enumerate() {
        if !b.is_ascii_graphic() {
            push_word(words, &bytes[start..i])?;
            if *b != b' ' {
                return Ok(i);
            }
            start = i + 1;
        }
    }
    push_word(words, &bytes[start..])?;
    Ok(bytes.len())
}

/// What stands behind the LF at the front, or the CR and the LF, if they do.
fn behind_end(bytes: &[u8]) -> Option<&[u8]>
    ensures value { IfSome result (λ after. behind_end bytes.now ≡ Some after.now) }
    ensures shorter { IfSome result (λ after. length after.now < length bytes.now) }
{
    match bytes {
        [b'\n', after @ ..] | [b'\r', b'\n', after @ ..] => Some(after),
        _ => None,
    }
}

/// The words of the first line, in place of those that are there, and what stands behind the line. None, and any words, where
/// the line is a comment, where it holds a byte that is not printable, and where its end is that of the bytes.
pub fn split_first_line<'a>(
    bytes: &'a [u8],
    words: &mut Vec<&'a [u8]>,
) -> Result<Option<&'a [u8]>, LineError>
    ensures value { IfOk result (λ found. IfSome found
        (λ after. IsFirstSplit bytes.now (texts words.new.items) after.now)) }
    ensures few { IfOk result (λ found. IfSome found
        (λ after. length words.new.items + length after.now < length bytes.now)) }
    ensures only { IfErr result (λ e. e ≡ Memory) }
{
    if is_skipped(bytes) {
        return Ok(None);
    }
    let len = split_printable(bytes, words)?;
    Ok(behind_end(&bytes[len..]))
}

/// The number that the digits make.
fn digits(word: &[u8]) -> Option<u64>
    requires few { length word.now ≤ 19 }
    ensures value { result ≡ digits_after 0 word.now }
{
    let mut value = 0u64;
    for b in word {
        if !b.is_ascii_digit() {
            return None;
        }
        value = value * 10 + u64::from(*b - b'0');
    }
    Some(value)
}

/// A number of 1 to 19 decimal digits.
#[tactic(auto, unfolding(crate::specs::Words::decimal_of))]
pub fn decimal(word: &[u8]) -> Option<u64>
    ensures value { result ≡ decimal_of word.now }
{
    if word.is_empty() || word.len() > 19 {
        return None;
    }
    digits(word)
}

/// A number of 1 to 19 decimal digits that is in the range.
#[tactic(auto, unfolding(crate::specs::Words::number_between))]
pub fn number_between(least: u64, most: u64, word: &[u8]) -> Option<u64>
    ensures value { result ≡ number_between least most word.now }
    ensures range { IfSome result (λ n. (least ≤ n) × (n ≤ most)) }
{
    let value = decimal(word)?;
    if !(least..=most).contains(&value) {
        return None;
    }
    Some(value)
}

/// A number up to this one.
#[tactic(auto, unfolding(crate::specs::Words::number_of))]
pub fn number(most: u64, word: &[u8]) -> Result<u64, LineError>
    ensures value { Gives (λ n. n) result (number_of most word.now) }
    ensures small { IfOk result (λ n. n ≤ most) }
{
    let Some(value) = decimal(word) else {
        return Err(LineError::Malformed);
    };
    if value > most {
        return Err(LineError::Malformed);
    }
    Ok(value)
}

/// A byte in decimal.
pub fn byte(word: &[u8]) -> Result<u8, LineError>
    ensures value { Gives (λ n. n) result (number_of 255 word.now) }
{
    let value = number(255, word)?;
    Ok(value as u8)
}

/// Whether a further digit follows a 0.
pub fn has_leading_zero(digits: &[u8]) -> bool
    ensures value { result ≡ has_leading_zero digits.now }
{
    matches!(digits, [b'0', _, ..])
}

/// The value of a hexadecimal digit, in either case.
fn hex_digit(digit: u8) -> Result<u8, LineError>
    ensures value { Gives (λ n. n) result (hex_digit_value digit) }
    ensures small { IfOk result (λ n. n < 16) }
{
    match digit {
        b'A'..=b'F' => Ok(digit - b'A' + 10),
        b'a'..=b'f' => Ok(digit - b'a' + 10),
        b'0'..=b'9' => Ok(digit - b'0'),
        _ => Err(LineError::Malformed),
    }
}

/// A byte as two hexadecimal digits.
#[tactic(auto, unfolding(crate::specs::Words::hex_byte_of))]
pub fn hex_byte(word: &[u8]) -> Result<u8, LineError>
    ensures value { Gives (λ n. n) result (hex_byte_of word.now) }
{
    match word {
        [high, low] => {
            let high = hex_digit(*high)?;
            let low = hex_digit(*low)?;
            Ok(high * 16 + low)
        }
        _ => Err(LineError::Malformed),
    }
}

/// A number of 16 bits as four hexadecimal digits.
#[tactic(auto, unfolding(crate::specs::Words::hex_word_of))]
pub fn hex_word(word: &[u8]) -> Result<u16, LineError>
    ensures value { Gives (λ n. n) result (hex_word_of word.now) }
{
    match word {
        [a, b, c, d] => {
            let high = hex_byte(&[*a, *b])?;
            let low = hex_byte(&[*c, *d])?;
            Ok(u16::from(high) * 256 + u16::from(low))
        }
        _ => Err(LineError::Malformed),
    }
}

/// The number of an error, from 1 to 4095.
#[tactic(auto, unfolding(crate::specs::Words::errno_of))]
pub fn errno(word: &[u8]) -> Result<u16, LineError>
    ensures value { Gives (λ n. n) result (errno_of word.now) }
    ensures errno { IfOk result IsErrno }
{
    let Some(value) = number_between(1, 4095, word) else {
        return Err(LineError::Malformed);
    };
    Ok(value as u16)
}

/// The kind of call that a refusal is for.
#[tactic(auto, unfolding(crate::specs::Words::call_of))]
pub fn call(word: &[u8]) -> Result<KernelCall, LineError>
    ensures value { Gives (λ c. c) result (call_of word.now) }
{
    let call = if reads(word, b"open") {
        KernelCall::OpenDevice
    } else if reads(word, b"readdesc") {
        KernelCall::ReadDesc
    } else if reads(word, b"getconfig") {
        KernelCall::GetConfig
    } else if reads(word, b"setconfig") {
        KernelCall::SetConfig
    } else if reads(word, b"reset") {
        KernelCall::Reset
    } else if reads(word, b"claim") {
        KernelCall::Claim
    } else if reads(word, b"detachclaim") {
        KernelCall::DetachClaim
    } else if reads(word, b"detach") {
        KernelCall::Detach
    } else if reads(word, b"attach") {
        KernelCall::Attach
    } else if reads(word, b"alt") {
        KernelCall::Alt
    } else if reads(word, b"halt") {
        KernelCall::Halt
    } else if reads(word, b"speed") {
        KernelCall::Speed
    } else if reads(word, b"submit") {
        KernelCall::Submit
    } else {
        return Err(LineError::Malformed);
    };
    Ok(call)
}
