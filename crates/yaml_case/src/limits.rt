//! Limits that stand in the arguments of the program.

ghost use Rattle.std.specs.Prelude.{◌<◌, ◌^◌, ℕ, MatchOption};
ghost use Rattle.yaml_read.specs.TreeReader.{PlainLimits};
ghost use Rattle.yaml_case.specs.Arguments.{Writes, WriteLimits};

use serde_yaml::Limits;

// The number that decimal digits write, if it is a `u16`.
fn number(digits: &str) -> Option<u16>
    ensures { MatchOption result ((n : ℕ) → n < 2 ^ 16 → ¬ (Writes digits.now n)) (Writes digits.now) }
{
    if digits.as_bytes().first() == Some(&b'+') {
        return None;
    }
    digits.parse::<u16>().ok()
}

/// The limits that two arguments write in decimal digits: the most nestings, and the most follows for each event.
pub fn limits_of(nesting: &str, follows: &str) -> Option<Limits>
    ensures { MatchOption result
        ((limits : PlainLimits) → ¬ (WriteLimits nesting.now follows.now limits))
        (WriteLimits nesting.now follows.now) }
{
    let nesting = u8::try_from(number(nesting)?).ok()?;
    let follows = number(follows)?;
    Limits::new(nesting, follows)
}
