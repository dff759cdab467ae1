//! Escaping text for XML.

ghost use Rattle.std.specs.Prelude.{◌≡◌, ◌++◌, IfOk, OnOk};
ghost use Rattle.srm_picture.specs.Escaping.{escape as escape_of, escaped as escaped_text};

use std::alloc::{AllocError, Global};

/// Escapes text for XML: `&`, `<`, `>` and `"` become entities, and a byte that isn't printable ASCII becomes `?`. Fails only if out of
/// memory.
pub fn escaped(alloc: Global, text: &[u8]) -> Result<Vec<u8>, AllocError>
    ensures { IfOk result (λ bytes. bytes.items ≡ escaped_text text.now) }
{
    let mut bytes = Vec::new(alloc);
    for byte in text {
        escape(&mut bytes, *byte)?;
    }
    Ok(bytes)
}

fn escape(bytes: &mut Vec<u8>, byte: u8) -> Result<(), AllocError>
    ensures { OnOk result (bytes.new.items ≡ bytes.old.items ++ escape_of byte) }
{
    match byte {
        b'&' => bytes.extend_from_slice(b"&amp;"),
        b'<' => bytes.extend_from_slice(b"&lt;"),
        b'>' => bytes.extend_from_slice(b"&gt;"),
        b'"' => bytes.extend_from_slice(b"&quot;"),
        b' '..=b'~' => bytes.extend_from_slice(&[byte]),
        _ => bytes.extend_from_slice(b"?"),
    }
}
