//! Bodies as a live member prints them.

ghost use Rattle.std.specs.Prelude.{◌≡◌, string_bytes, IfOk};
ghost use Rattle.srm_live.specs.Readable as spec;
ghost use Rattle.srm_live.specs.Readable.{readable_text};

use bstr::ByteSlice;
use std::alloc::{AllocError, Global};

/// Returns the text of a body: its characters in UTF-8, but a question mark for each control character, for each that turns the direction of the text, and for each run of
/// bytes that begins no character. So what another member drew can't steer the terminal.
///
/// Fails only if out of memory. Takes time in proportion to the body.
pub fn readable(alloc: Global, body: &[u8]) -> Result<String, AllocError>
    ensures { IfOk result (λ text. string_bytes text ≡ readable_text body.now) }
{
    body.chars().map(shown_character).collect(alloc)
}

// A character as it is shown.
fn shown_character(character: char) -> char
    ensures { result ≡ spec.shown_character character }
{
    match character {
        '\u{0}'..='\u{1f}' | '\u{7f}'..='\u{9f}' => '?',
        '\u{61c}' | '\u{200e}' | '\u{200f}' => '?',
        '\u{202a}'..='\u{202e}' | '\u{2066}'..='\u{2069}' => '?',
        '\u{fffd}' => '?',
        _ => character,
    }
}
