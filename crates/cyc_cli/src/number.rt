//! This file reads the numbers of the command line.
ghost use Rattle.std.specs.Prelude.{◌≡◌, ◌≤◌};
ghost use Rattle.std.specs.Option.{SomeIff};
ghost use Rattle.std.specs.Str.Parse.{IsNumeral, digits_value};

/// Returns the number that a text writes in decimal, if it lies from `low` to `high`. The text must consist of ASCII digits without a sign;
/// leading zeros are allowed in the text. The function returns `None` for a text that is no such number, or whose number is not from `low`
/// to `high`.
pub fn within(text: &str, low: u64, high: u64) -> Option<u64>
    ensures { SomeIff result (IsNumeral 10 text.now × (low ≤ digits_value 10 text.now)
        × (digits_value 10 text.now ≤ high)) (digits_value 10 text.now) }
{
    if text.starts_with('+') {
        return None;
    }
    let number = text.parse::<u64>().ok()?;
    if number < low || number > high {
        return None;
    }
    Some(number)
}
