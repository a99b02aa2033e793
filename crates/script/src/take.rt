// The words of a line one after another, as what they say.
ghost use Rattle.std.specs.Prelude.{◌≡◌, ℕ, List, Option, Some};
ghost use Rattle.std.specs.Result.{result_ok};
ghost use Rattle.script.specs.Takes.{taken, left, named_left, end};
ghost use Rattle.script.specs.Words.{words};

use crate::reason::Reason;
use crate::words::next_word;

// Values that a word can say.
pub(crate) trait FromWord {
    type Value;

    ghost said: { List ℕ → Option Self.Value };

    fn from_word(word: &str) -> Result<Self::Value, Reason>
        ensures { result_ok result ≡ said word.now };
}

// any word
pub(crate) fn take_name(text: &str) -> Result<(&str, &str), Reason>
    ensures { named_left result ≡ taken (λ w. Some w) (words text.now) }
{
    next_word(text).ok_or(Reason::WordMissing)
}

// What the first word of a text says, with the rest of the text.
pub(crate) fn take<T: FromWord>(text: &str) -> Result<(T::Value, &str), Reason>
    ensures { left result ≡ taken T.said (words text.now) }
{
    let (word, rest) = take_name(text)?;
    Ok((T::from_word(word)?, rest))
}

// What is said, if no word is left.
pub(crate) fn ended<T: Copy>(said: T, text: &str) -> Result<T, Reason>
    ensures { result_ok result ≡ end said (words text.now) }
{
    match next_word(text) {
        None => Ok(said),
        Some(_) => Err(Reason::WordTooMany),
    }
}
