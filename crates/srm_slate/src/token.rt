//! The token in a page's address.

ghost use Rattle.std.specs.Prelude.{◌≡◌, ℕ, List, string_bytes, IfOk, OnOk};
ghost use Rattle.hex.specs.Hex.{encode_lower};
ghost use Rattle.srm_slate.specs.Tokens.{IsToken};

use std::alloc::{AllocError, Global};
use std::io;
use std::random::RandomSource;

/// The bytes of a token: as many as nobody guesses.
const BYTES: usize = 16;

/// Where the bytes of a token come from: the system, or in tests another source. Each source says which bytes it may give, so the clause of a token tells
/// that it was made of these.
pub trait TokenSource {
    // It may give these bytes.
    ghost gives: { Self → List ℕ → Type 0 };

    /// Fills a buffer. Fails with the system's error.
    fn fill(&self, buffer: &mut [u8]) -> io::Result<()>
        ensures { OnOk result (gives self.now buffer.new) };
}

impl<R: RandomSource> TokenSource for R {
    ghost gives = { λ source bytes. Unit {0} };

    fn fill(&self, buffer: &mut [u8]) -> io::Result<()> {
        self.fill_bytes(buffer)?;
        Ok(())
    }
}

/// Makes a token: 32 hexadecimal digits, which are 16 bytes of the source. Fails with the system's error if it has none, and with `OutOfMemory`.
pub fn new_token<S: TokenSource>(source: &S, alloc: Global) -> io::Result<String>
    ensures { IfOk result (λ token. IsToken (S.gives source.now) (string_bytes token)) }
{
    let mut bytes = [0_u8; BYTES];
    source.fill(&mut bytes)?;
    Ok(text_of(alloc, bytes)?)
}

// Writes the bytes of a token as digits.
fn text_of(alloc: Global, bytes: [u8; BYTES]) -> Result<String, AllocError>
    ensures { IfOk result (λ text. string_bytes text ≡ encode_lower bytes) }
{
    hex::encode(alloc, bytes)
}
