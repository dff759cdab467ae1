//! HMAC-SHA256 (RFC 2104).

ghost use Rattle.std.specs.Prelude.{◌≡◌, ℕ, ◌≤◌, ◌++◌, List, drop, length};
ghost use Rattle.sha2.specs.Sha256.{sha256};
ghost use Rattle.srm_guard.specs.Tags.{filled, hmac_sha256, key_block, padded};

use sha2::{Digest, Sha256};

/// Bytes of a block of SHA-256.
const BLOCK_BYTES: usize = 64;

/// What each byte of a key's block is combined with, before the message and before the digest of the two.
const INNER: u8 = 0x36;

const OUTER: u8 = 0x5c;

/// Returns the HMAC-SHA256 (RFC 2104) of a message under a key of any length. A key of more than 64 bytes is replaced by its digest. It is public so that tests
/// compare it with worked codes: a guard uses [`Key::tag`].
pub fn hmac_sha256(key: &[u8], message: &[u8]) -> [u8; 32]
    ensures { result ≡ hmac_sha256 key.now message.now }
{
    Pads::new(key).code(b"", message)
}

/// A key prepared for many messages: its block, combined with either byte.
#[derive(Drop)]
pub(crate) struct Pads {
    inner: [u8; 64],
    outer: [u8; 64],
}

impl Pads {
    /// Prepares a key of any length.
    pub(crate) fn new(key: &[u8]) -> Pads
        ensures inner { result.inner ≡ padded (key_block key.now) 0x36 }
        ensures outer { result.outer ≡ padded (key_block key.now) 0x5c }
    {
        let block = block_of(key);
        Pads {
            inner: padded(&block, INNER),
            outer: padded(&block, OUTER),
        }
    }

    /// Returns the code of a label with a message behind it.
    pub(crate) fn code(&self, label: &[u8], message: &[u8]) -> [u8; 32]
        ensures { result ≡ sha256 (self.now.outer ++ sha256 (self.now.inner ++ (label.now ++ message.now))) }
    {
        let mut hasher = Sha256::new();
        hasher.update(self.inner.as_slice());
        hasher.update(label);
        hasher.update(message);
        let inner = hasher.finalize();
        let mut hasher = Sha256::new();
        hasher.update(self.outer.as_slice());
        hasher.update(inner.as_slice());
        hasher.finalize()
    }
}

fn block_of(key: &[u8]) -> [u8; 64]
    ensures { result ≡ key_block key.now }
{
    if key.len() <= BLOCK_BYTES {
        filled(key)
    } else {
        filled(Sha256::digest(key).as_slice())
    }
}

fn filled(bytes: &[u8]) -> [u8; 64]
    requires { length bytes.now ≤ 64 }
    ensures { result ≡ filled bytes.now }
{
    with_front([0; 64], bytes)
}

// A block whose first bytes are these.
fn with_front(block: [u8; 64], bytes: &[u8]) -> [u8; 64]
    requires { length bytes.now ≤ 64 }
    ensures { result ≡ bytes.now ++ drop (length bytes.now) block }
{
    let mut block = block;
    block[..bytes.len()].copy_from_slice(bytes);
    block
}

fn padded(block: &[u8; 64], byte: u8) -> [u8; 64]
    ensures { result ≡ padded block.now byte }
{
    let mut out = *block;
    for index in 0..BLOCK_BYTES {
        out[index] ^= byte;
    }
    out
}
