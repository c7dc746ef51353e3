//! The LIST of `--choices`.
ghost use Rattle.std.specs.Prelude.{◌≡◌, IfOk, IsErrOf, None, Some};
ghost use Rattle.std.specs.Char.{is_ascii_digit};
ghost use Rattle.std.specs.List.{list_all};
ghost use Rattle.dine_words.specs.Choices.{choice_of, choices_of};

use crate::words::WordsFault;
use std::alloc::Global;

// The greatest number of digits of a choice.
const MAX_DIGITS: usize = 10;

/// Returns the choices of the text: one or more numbers of 1 to 10 decimal digits, at most 4294967295 each, separated
/// by single commas.
///
/// # Errors
///
/// Returns `Usage` if the text has another form, and `Memory` if an allocation fails.
pub fn choices_of(alloc: Global, list: &str) -> Result<Vec<u32>, WordsFault>
    ensures choices { IfOk result (λ choices. choices_of list.now ≡ Some choices.items) }
    ensures refused { IsErrOf result WordsFault.Usage → choices_of list.now ≡ None }
{
    let mut choices = Vec::new(alloc);
    for text in list.split(',') {
        match choice_of(text) {
            Some(choice) => choices.push(choice).map_err(|_| WordsFault::Memory)?,
            None => return Err(WordsFault::Usage),
        }
    }
    Ok(choices)
}

// The choice that the text writes, if it is one.
fn choice_of(text: &str) -> Option<u32>
    ensures { result ≡ choice_of text.now }
{
    if text.len() > MAX_DIGITS || !are_digits(text) {
        return None;
    }
    match text.parse() {
        Ok(choice) => Some(choice),
        Err(_) => None,
    }
}

// Whether each byte of the text is a decimal digit.
fn are_digits(text: &str) -> bool
    ensures { result ≡ list_all is_ascii_digit text.now }
{
    text.as_bytes().iter().all(|byte| byte.is_ascii_digit())
}
