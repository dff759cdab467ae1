//! Lines that an output was given whole.

ghost use Rattle.std.specs.Prelude.{◌≡◌, string_bytes, IfSome};
ghost use Rattle.std.specs.Io.KnownBytes.{Appends};

use std::io::Write;
use std::marker::Model;

/// A line that an output was given, whole. Nothing else makes one. Contracts see its bytes.
#[derive(Drop)]
pub struct Printed {
    line: String,
}

impl Model for Printed {
    ghost use Rattle.std.specs.Prelude.{ℕ, List, string_bytes};

    ghost Value = { List ℕ };

    ghost view = { λ p. string_bytes p.line };
}

impl Printed {
    /// Writes a line to an output, whole, and flushes it. Returns `None` if the output fails: then it may have a part of the line.
    pub fn on<O: Write>(out: &mut O, line: String) -> Option<Printed>
        ensures { IfSome result (λ printed. (printed ≡ string_bytes line) × Appends (O.contents out.old) (O.contents out.new) (string_bytes line)) }
    {
        out.write_all(line.as_bytes()).ok()?;
        out.flush().ok()?;
        Some(Printed { line })
    }
}
