//! Whether a letter is Close.
ghost use Rattle.std.specs.Prelude.{◌≡◌};
ghost use Rattle.dine_link.specs.Closing as closing;

use dine_rules::Letter;

// Returns whether the letter is Close, the last one of its link.
pub fn is_close(letter: &Letter) -> bool
    ensures { result ≡ closing.is_close letter.now }
{
    matches!(letter, Letter::Close)
}
