//! What a run is to fail on.

ghost use Rattle.std.specs.Prelude.{◌≡◌, ◌<◌, ◌≤◌, length, count_by, MatchOption};
ghost use Rattle.std.specs.Str.{bytes_eq};
ghost use Rattle.afdx_arguments.specs.declared.fail_on.FailOn.{FailOn as Chosen};
ghost use Rattle.afdx_arguments.specs.FailOn.{words_of, times, IsListOf};

/// What a run is to fail on: it ends with status 1 if there was one of these.
#[derive(Clone, Copy, Debug, Default, PartialEq, Eq)]
pub struct FailOn {
    /// A frame that an account policed.
    pub policed: bool,
    /// A frame that the filter dropped.
    pub filtered: bool,
    /// A copy that was lost.
    pub lost: bool,
}

/// Returns how often a word is in a list. O(list).
fn count(list: &str, word: &str) -> usize
    ensures { result ≡ count_by (λ w. bytes_eq w word.now) (words_of list.now) }
{
    list.split(',').filter(|other| *other == word).count()
}

/// Returns the number of words of a list. O(list).
fn length(list: &str) -> usize
    ensures { result ≡ length (words_of list.now) }
{
    list.split(',').count()
}

/// Returns how often a list has a word that it chooses or not: once or never.
fn times(chosen: bool) -> usize
    ensures times { result ≡ times chosen }
    ensures most { result ≤ 1 }
{
    if chosen { 1 } else { 0 }
}

/// Returns whether a word that is in a list at most once is there; `None` if it is there more often.
fn is_chosen(list: &str, word: &str) -> Option<bool>
    ensures { MatchOption result (1 < count_by (λ w. bytes_eq w word.now) (words_of list.now))
        (λ chosen. count_by (λ w. bytes_eq w word.now) (words_of list.now) ≡ times chosen) }
{
    match count(list, word) {
        0 => Some(false),
        1 => Some(true),
        _ => None,
    }
}

impl FailOn {
    /// Returns what a list of words with commas between them chooses: of `policed`, `filtered` and `lost` each at most once, in any order,
    /// and nothing else. Another list has `None`. O(list).
    pub(crate) fn of_list(list: &str) -> Option<FailOn>
        ensures { MatchOption result ((chosen : Chosen) → IsListOf list.now chosen → ⊥) (IsListOf list.now) }
    {
        let policed = is_chosen(list, "policed")?;
        let filtered = is_chosen(list, "filtered")?;
        let lost = is_chosen(list, "lost")?;
        if length(list) != times(policed) + times(filtered) + times(lost) {
            return None;
        }
        Some(FailOn {
            policed,
            filtered,
            lost,
        })
    }
}
