//! The entry of a code.

ghost use Rattle.std.specs.Prelude.{◌≡◌, map, find, option_copied, option_map};
ghost use Rattle.std.specs.Str.{bytes_eq};
ghost use Rattle.afdx_remedies.specs.Entries.{entries, entry_of};

use crate::entries::ENTRIES;

/// Returns the codes, each with its text.
#[tactic(auto, unfolding(crate::specs::Entries::entries))]
fn entries() -> &'static [(&'static str, &'static str)]
    ensures { map (λ pair. (pair.0.now, pair.1.now)) result.now ≡ entries }
{
    &ENTRIES
}

/// Returns the first pair of a code, if there is one.
fn first_of<'a>(
    pairs: &'a [(&'static str, &'static str)],
    code: &str,
) -> Option<&'a (&'static str, &'static str)>
    ensures { option_copied result ≡ find (λ pair. bytes_eq pair.0.now code.now) pairs.now }
{
    pairs.iter().find(|pair| pair.0 == code)
}

/// Returns what MESSAGES says of the lines of a code: for each fault that it stands for, what is wrong and, after `Remedy:`, what
/// to do, in lines that end with a line feed. Another word has `None`.
///
/// O(codes).
pub fn entry_of(code: &str) -> Option<&'static str>
    ensures { option_map (λ text. text.now) result ≡ entry_of code.now }
{
    match first_of(entries(), code) {
        Some(pair) => Some(pair.1),
        None => None,
    }
}
