//! So many words, and no more.

ghost use Rattle.std.specs.Prelude.{◌≡◌, ◌<◌, length, IfOk, OnOk};
ghost use Rattle.usb_script_words.specs.Fields.{texts, no_word, one_word, two_words, three_words, four_words, six_words, one_and_more, two_and_more, three_and_more};
ghost use Rattle.usb_script_words.specs.Outcome.{Gives};

use crate::line_error::LineError;

/// No word.
#[tactic(auto, unfolding(crate::specs::Fields::no_word))]
pub fn no_word(words: &[&[u8]]) -> Result<(), LineError>
    ensures value { Gives (λ x. x) result (no_word (texts words.now)) }
{
    match *words {
        [] => Ok(()),
        _ => Err(LineError::Malformed),
    }
}

/// One word.
#[tactic(auto, unfolding(crate::specs::Fields::one_word))]
pub fn one_word<'a>(words: &[&'a [u8]]) -> Result<&'a [u8], LineError>
    ensures value { Gives (λ x. x.now) result (one_word (texts words.now)) }
    ensures count { OnOk result (length words.now ≡ 1) }
{
    match *words {
        [a] => Ok(a),
        _ => Err(LineError::Malformed),
    }
}

/// Two words.
#[tactic(auto, unfolding(crate::specs::Fields::two_words))]
pub fn two_words<'a>(words: &[&'a [u8]]) -> Result<(&'a [u8], &'a [u8]), LineError>
    ensures value { Gives (λ x. (x.0.now, x.1.now)) result (two_words (texts words.now)) }
    ensures count { OnOk result (length words.now ≡ 2) }
{
    match *words {
        [a, b] => Ok((a, b)),
        _ => Err(LineError::Malformed),
    }
}

/// Three words.
#[tactic(auto, unfolding(crate::specs::Fields::three_words))]
pub fn three_words<'a>(words: &[&'a [u8]]) -> Result<(&'a [u8], &'a [u8], &'a [u8]), LineError>
    ensures value { Gives (λ x. (x.0.now, x.1.now, x.2.now)) result
        (three_words (texts words.now)) }
    ensures count { OnOk result (length words.now ≡ 3) }
{
    match *words {
        [a, b, c] => Ok((a, b, c)),
        _ => Err(LineError::Malformed),
    }
}

/// Four words.
#[tactic(auto, unfolding(crate::specs::Fields::four_words))]
pub fn four_words<'a>(
    words: &[&'a [u8]],
) -> Result<(&'a [u8], &'a [u8], &'a [u8], &'a [u8]), LineError>
    ensures value { Gives (λ x. (x.0.now, x.1.now, x.2.now, x.3.now)) result
        (four_words (texts words.now)) }
{
    match *words {
        [a, b, c, d] => Ok((a, b, c, d)),
        _ => Err(LineError::Malformed),
    }
}

/// Six words.
#[tactic(auto, unfolding(crate::specs::Fields::six_words))]
pub fn six_words<'a>(
    words: &[&'a [u8]],
) -> Result<(&'a [u8], &'a [u8], &'a [u8], &'a [u8], &'a [u8], &'a [u8]), LineError>
    ensures value { Gives (λ x. (x.0.now, x.1.now, x.2.now, x.3.now, x.4.now, x.5.now)) result
        (six_words (texts words.now)) }
{
    match *words {
        [a, b, c, d, e, f] => Ok((a, b, c, d, e, f)),
        _ => Err(LineError::Malformed),
    }
}

/// One word, and those behind it.
#[tactic(auto, unfolding(crate::specs::Fields::one_and_more))]
pub fn one_and_more<'w, 'a>(words: &'w [&'a [u8]]) -> Result<(&'a [u8], &'w [&'a [u8]]), LineError>
    ensures value { Gives (λ x. (x.0.now, texts x.1.now)) result (one_and_more (texts words.now)) }
    ensures fewer { IfOk result (λ x. length x.1.now < length words.now) }
{
    match words {
        [a, more @ ..] => Ok((*a, more)),
        _ => Err(LineError::Malformed),
    }
}

/// Two words, and those behind them.
#[tactic(auto, unfolding(crate::specs::Fields::two_and_more))]
pub fn two_and_more<'w, 'a>(
    words: &'w [&'a [u8]],
) -> Result<(&'a [u8], &'a [u8], &'w [&'a [u8]]), LineError>
    ensures value { Gives (λ x. (x.0.now, x.1.now, texts x.2.now)) result
        (two_and_more (texts words.now)) }
    ensures fewer { IfOk result (λ x. length x.2.now < length words.now) }
{
    match words {
        [a, b, more @ ..] => Ok((*a, *b, more)),
        _ => Err(LineError::Malformed),
    }
}

/// Three words, and those behind them.
#[tactic(auto, unfolding(crate::specs::Fields::three_and_more))]
pub fn three_and_more<'w, 'a>(
    words: &'w [&'a [u8]],
) -> Result<(&'a [u8], &'a [u8], &'a [u8], &'w [&'a [u8]]), LineError>
    ensures value { Gives (λ x. (x.0.now, x.1.now, x.2.now, texts x.3.now)) result
        (three_and_more (texts words.now)) }
    ensures fewer { IfOk result (λ x. length x.3.now < length words.now) }
{
    match words {
        [a, b, c, more @ ..] => Ok((*a, *b, *c, more)),
        _ => Err(LineError::Malformed),
    }
}
