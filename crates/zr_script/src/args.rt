//! The words of a text, taken from it one after another: no list of them is made.

ghost use Rattle.std.specs.Prelude.{◌≡◌, ◌==◌, ◌<◌, ◌∷◌, [], length, nat_lt, position, MatchOption, if◌then◌else◌};
ghost use Rattle.zr_script_spec.specs.Step.{IsSaid};
ghost use Rattle.zr_script_spec.specs.Words.{words, is_there, link_weight_at, time_at, one_of, two_of, some_two_of, three_of, four_of, five_of};
ghost use Rattle.zr_script.specs.Args.{Takes, none_of};

use crate::word::{is_word, number, weight};
use zr_msg::peer::Weight;
use zr_script_spec::error::ScriptError;

/// The first word of a text, and what is behind it.
pub fn first(text: &[u8]) -> Option<(&[u8], &[u8])>
    ensures { MatchOption result (words text.now ≡ []) (λ p. words text.now ≡ p.0.now ∷ words p.1.now) }
{
    let mut rest = text;
    while !rest.is_empty() {
        let (word, behind) = part(rest);
        if !word.is_empty() {
            return Some((word, behind));
        }
        rest = behind;
    }
    None
}

// The bytes before the first space, which are a word if there are any, and those behind it.
#[tactic(auto, using(crate::proofs::Parting::part_at, crate::proofs::Parting::part_whole, crate::proofs::Parting::behind_shorter))]
fn part(text: &[u8]) -> (&[u8], &[u8])
    requires { 0 < length text.now }
    ensures words { words text.now ≡ (if nat_lt 0 (length result.0.now) then result.0.now ∷ words result.1.now else words result.1.now) }
    ensures shorter { length result.1.now < length text.now }
{
    match space(text) {
        Some(place) => (&text[..place], &text[place + 1..]),
        None => (text, &[]),
    }
}

fn space(text: &[u8]) -> Option<usize>
    ensures { result ≡ position (λ b. b == 32) text.now }
{
    text.iter().position(|b| *b == b' ')
}

/// The one word that there is.
#[tactic(auto, using(crate::proofs::Parting::one_more))]
pub fn one(text: &[u8]) -> Result<&[u8], ScriptError>
    ensures { Takes (λ a. a.now ∷ []) result (one_of (words text.now)) (words text.now) }
{
    let Some((a, rest)) = first(text) else {
        return Err(ScriptError::BadWords);
    };
    none(rest)?;
    Ok(a)
}

/// The two words that there are.
#[tactic(auto, using(crate::proofs::Parting::two_more))]
pub fn two(text: &[u8]) -> Result<(&[u8], &[u8]), ScriptError>
    ensures { Takes (λ x. x.0.now ∷ x.1.now ∷ []) result (two_of (words text.now)) (words text.now) }
{
    let Some((a, rest)) = first(text) else {
        return Err(ScriptError::BadWords);
    };
    let b = one(rest)?;
    Ok((a, b))
}

/// The first two words and what is behind them, where there are two at least.
#[tactic(auto, using(crate::proofs::Parting::few_two))]
pub fn some_two(text: &[u8]) -> Result<(&[u8], &[u8], &[u8]), ScriptError>
    ensures { Takes (λ x. x.0.now ∷ x.1.now ∷ words x.2.now) result (some_two_of (words text.now)) (words text.now) }
{
    match pair(text) {
        Some(words) => Ok(words),
        None => Err(ScriptError::BadWords),
    }
}

/// The three words that there are.
#[tactic(auto, using(crate::proofs::Parting::three_more))]
pub fn three(text: &[u8]) -> Result<(&[u8], &[u8], &[u8]), ScriptError>
    ensures { Takes (λ x. x.0.now ∷ x.1.now ∷ x.2.now ∷ []) result (three_of (words text.now)) (words text.now) }
{
    let Some((a, rest)) = first(text) else {
        return Err(ScriptError::BadWords);
    };
    let (b, c) = two(rest)?;
    Ok((a, b, c))
}

/// The first four words and what is behind them, where there are four at least.
#[tactic(auto, using(crate::proofs::Parting::few_four))]
pub fn four(text: &[u8]) -> Result<(&[u8], &[u8], &[u8], &[u8], &[u8]), ScriptError>
    ensures { Takes (λ x. x.0.now ∷ x.1.now ∷ x.2.now ∷ x.3.now ∷ words x.4.now) result (four_of (words text.now)) (words text.now) }
{
    let Some((a, b, rest)) = pair(text) else {
        return Err(ScriptError::BadWords);
    };
    let Some((c, d, rest)) = pair(rest) else {
        return Err(ScriptError::BadWords);
    };
    Ok((a, b, c, d, rest))
}

/// The first five words and what is behind them, where there are five at least.
#[tactic(auto, using(crate::proofs::Parting::few_five))]
pub fn five(text: &[u8]) -> Result<(&[u8], &[u8], &[u8], &[u8], &[u8], &[u8]), ScriptError>
    ensures { Takes (λ x. x.0.now ∷ x.1.now ∷ x.2.now ∷ x.3.now ∷ x.4.now ∷ words x.5.now) result (five_of (words text.now)) (words text.now) }
{
    let Some((a, rest)) = first(text) else {
        return Err(ScriptError::BadWords);
    };
    let Some((b, c, rest)) = pair(rest) else {
        return Err(ScriptError::BadWords);
    };
    let Some((d, e, rest)) = pair(rest) else {
        return Err(ScriptError::BadWords);
    };
    Ok((a, b, c, d, e, rest))
}

// The first two words and what is behind them, where there are two at least.
fn pair(text: &[u8]) -> Option<(&[u8], &[u8], &[u8])>
    ensures { MatchOption result (length (words text.now) < 2) (λ x. words text.now ≡ x.0.now ∷ x.1.now ∷ words x.2.now) }
{
    let (a, rest) = first(text)?;
    let (b, rest) = first(rest)?;
    Some((a, b, rest))
}

/// The weight that the words behind a link's names spell: 1 where there is none.
pub fn link_weight(text: &[u8]) -> Result<Weight, ScriptError>
    ensures { IsSaid result (link_weight_at (words text.now)) }
{
    let Some((word, rest)) = first(text) else {
        return Ok(Weight::one());
    };
    none(rest)?;
    weight(word)
}

/// The time that the words behind a reply's payload spell, if there is one.
pub fn time(text: &[u8]) -> Result<Option<u32>, ScriptError>
    ensures { IsSaid result (time_at (words text.now)) }
{
    let Some((word, rest)) = first(text) else {
        return Ok(None);
    };
    none(rest)?;
    let time = number(word)?;
    Ok(Some(time))
}

/// Whether a word that may be left out stands there: it is the only one then.
pub fn is_there(text: &[u8], word: &[u8]) -> Result<bool, ScriptError>
    ensures { IsSaid result (is_there word.now (words text.now)) }
{
    let Some((only, rest)) = first(text) else {
        return Ok(false);
    };
    none(rest)?;
    if is_word(only, word) {
        Ok(true)
    } else {
        Err(ScriptError::BadWords)
    }
}

/// That there is no word.
pub fn none(text: &[u8]) -> Result<(), ScriptError>
    ensures { Takes (λ u. []) result (none_of (words text.now)) (words text.now) }
{
    match first(text) {
        None => Ok(()),
        Some(_) => Err(ScriptError::BadWords),
    }
}
