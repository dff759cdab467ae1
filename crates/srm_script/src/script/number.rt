//! Numbers of a script.

ghost use Rattle.std.specs.Prelude.{◌↔◌, IfSome, IfNone, IsTrue, ℕ};
ghost use Rattle.srm_script.specs.Decimals.{IsDecimalUpTo, IsPadded};

/// Reads a number in decimal, without sign and leading zeros. Returns `None` if the text is none, or the number is above `greatest`.
pub fn read_number(text: &str, greatest: u64) -> Option<u64>
    ensures some { IfSome result (IsDecimalUpTo greatest text.now) }
    ensures none { IfNone result ((number : ℕ) → ¬ (IsDecimalUpTo greatest text.now number)) }
{
    if is_padded(text.as_bytes()) {
        return None;
    }
    match text.parse::<u64>() {
        Ok(number) if number <= greatest => Some(number),
        _ => None,
    }
}

/// Whether the text begins with a plus or a needless zero, which `parse` accepts.
fn is_padded(text: &[u8]) -> bool
    ensures { IsTrue result ↔ IsPadded text.now }
{
    matches!(text, [b'+', ..] | [b'0', _, ..])
}
