//! How much of a bound a delay left.

ghost use Rattle.std.specs.Prelude.{◌≡◌, ◌<◌};
ghost use Rattle.afdx_csv.specs.Csv.{text_of};
ghost use Rattle.afdx_csv.specs.Slack.{left_text, per_mille, slack_text, share_text};

use crate::field::Field;

/// Returns what was left of a limit: below 0 if more was used.
fn left(used: u128, limit: u128) -> Field<'static>
    ensures { text_of result ≡ left_text used limit }
{
    if used <= limit {
        Field::Number(Some(limit - used))
    } else {
        Field::Below(used - limit)
    }
}

/// Returns how many thousandths of a bound the greatest delay takes, rounded up.
fn per_mille(greatest: u64, bound: u128) -> u128
    requires { 0 < bound }
    ensures { result ≡ per_mille greatest bound }
{
    (1000 * u128::from(greatest)).div_ceil(bound)
}

/// Returns how much of a bound the greatest delay left, both in nanoseconds: below 0 if it was past the bound, nothing if one of them is
/// not there. O(1).
pub fn slack(greatest: Option<u64>, bound: Option<u128>) -> Field<'static>
    ensures { text_of result ≡ slack_text greatest bound }
{
    match (greatest, bound) {
        (Some(greatest), Some(bound)) => left(u128::from(greatest), bound),
        _ => Field::Number(None),
    }
}

/// Returns the same in thousandths of the bound, rounded down, so that it is below 0 if the slack is; nothing if the bound is 0. O(1).
pub fn slack_per_mille(greatest: Option<u64>, bound: Option<u128>) -> Field<'static>
    ensures { text_of result ≡ share_text greatest bound }
{
    match (greatest, bound) {
        (Some(greatest), Some(bound)) if bound > 0 => left(per_mille(greatest, bound), 1000),
        _ => Field::Number(None),
    }
}
