//! The CRC-32 of zip, PNG and Ethernet.

ghost use Rattle.std.specs.Prelude.{◌≡◌, ℕ, ◌+◌, ◌*◌, ◌<◌, ◌≤◌, fold, bit_and};
ghost use Rattle.srm_frames.specs.Checksums.{crc_32, after_byte, remainder_of, remainder_after};

use crate::remainders::REMAINDERS;

/// Returns the CRC-32 of bytes, as zip, PNG and Ethernet have it. Takes no memory.
#[tactic(auto, unfolding(crate::specs::Checksums::crc_32))]
pub fn crc_32(bytes: &[u8]) -> u32
    ensures { result ≡ crc_32 bytes.now }
{
    let (sixteens, rest) = bytes.as_chunks::<16>();
    after_few(after_sixteens(0xffff_ffff, sixteens), rest) ^ 0xffff_ffff
}

fn after_sixteens(before: u32, sixteens: &[[u8; 16]]) -> u32
    ensures { result ≡ fold (fold after_byte) before sixteens.now }
{
    let mut register = before;
    for sixteen in sixteens {
        register = after_sixteen(register, sixteen);
    }
    register
}

// Four bytes at a time, and the rest one by one.
fn after_few(before: u32, bytes: &[u8]) -> u32
    ensures { result ≡ fold after_byte before bytes.now }
{
    let (fours, rest) = bytes.as_chunks::<4>();
    after_bytes(after_fours(before, fours), rest)
}

fn after_fours(before: u32, fours: &[[u8; 4]]) -> u32
    ensures { result ≡ fold (fold after_byte) before fours.now }
{
    let mut register = before;
    for four in fours {
        register = after_four(register, four);
    }
    register
}

fn after_bytes(before: u32, bytes: &[u8]) -> u32
    ensures { result ≡ fold after_byte before bytes.now }
{
    let mut register = before;
    for byte in bytes {
        register = after_byte(register, *byte);
    }
    register
}

// What each byte leaves doesn't depend on the others, so a processor looks all sixteen up side by side. Those that the register isn't needed for come first.
fn after_sixteen(register: u32, sixteen: &[u8; 16]) -> u32
    ensures { result ≡ fold after_byte register sixteen.now }
{
    let [a, b, c, d, e, f, g, h, i, j, k, l, m, n, o, p] = *sixteen;
    let last = after_four_and_zeros(0, 0, &[m, n, o, p]);
    let third = after_four_and_zeros(4, 0, &[i, j, k, l]);
    let second = after_four_and_zeros(8, 0, &[e, f, g, h]);
    let first = after_four_and_zeros(12, register, &[a, b, c, d]);
    ((last ^ third) ^ second) ^ first
}

fn after_four(register: u32, four: &[u8; 4]) -> u32
    ensures { result ≡ fold after_byte register four.now }
{
    after_four_and_zeros(0, register, four)
}

// Four bytes, with this many zero bytes behind them.
fn after_four_and_zeros(zeros: usize, register: u32, four: &[u8; 4]) -> u32
    requires { zeros ≤ 12 }
    ensures { result ≡ remainder_after (8 * zeros) (fold after_byte register four.now) }
{
    let [first, second, third, last] = *four;
    let first = remainder(zeros + 3, (register ^ u32::from(first)) & 0xff);
    let second = remainder(zeros + 2, (register >> 8 ^ u32::from(second)) & 0xff);
    let third = remainder(zeros + 1, (register >> 16 ^ u32::from(third)) & 0xff);
    let last = remainder(zeros, (register >> 24 ^ u32::from(last)) & 0xff);
    first ^ (second ^ (third ^ last))
}

#[tactic(auto, unfolding(crate::specs::Checksums::after_byte))]
fn after_byte(register: u32, byte: u8) -> u32
    ensures { result ≡ after_byte register byte }
{
    remainder(0, (register ^ u32::from(byte)) & 0xff) ^ (register >> 8)
}

// What a byte leaves, with this many zero bytes behind it.
fn remainder(zeros: usize, low: u32) -> u32
    requires few { zeros < 16 }
    requires byte { low < 256 }
    ensures { result ≡ remainder_after (8 * zeros + 8) low }
{
    REMAINDERS[zeros][low as usize]
}
