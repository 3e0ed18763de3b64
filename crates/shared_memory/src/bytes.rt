//! Numbers in a list of bytes, the lowest byte first (RISC-V Unprivileged ISA, "RV32I",
//! little-endian memory).

ghost use Rattle.std.specs.Prelude.{◌≡◌, ℕ, ◌+◌, ◌<◌, ◌≤◌, List, length, slice_index};
ghost use Rattle.smt_model.specs.Bytes.{number_at, written_byte, write_of};
ghost use Rattle.rv_execute.specs.Access.{IsSize};

use byteorder::{ByteOrder, LittleEndian};

/// The number that the 1, 2 or 4 bytes from a place are.
pub fn number_in(bytes: &[u8], place: usize, n: u8) -> u32
    requires size { IsSize n }
    requires within { place + n ≤ length bytes.now }
    ensures { result ≡ number_at (slice_index bytes.now) place n }
{
    match n {
        1 => u32::from(bytes[place]),
        2 => u32::from(LittleEndian::read_u16(&bytes[place..])),
        _ => LittleEndian::read_u32(&bytes[place..]),
    }
}

/// Puts the lowest `n` bytes of a number from a place on, at most 4.
#[inline]
pub fn put_number(bytes: &mut [u8], place: usize, n: u8, datum: u32)
    requires size { n ≤ 4 }
    requires within { place + n ≤ length bytes.old }
    ensures length { length bytes.new ≡ length bytes.old }
    ensures bytes { (k : ℕ) → slice_index bytes.new k
        ≡ written_byte (write_of place n datum) k (slice_index bytes.old k) }
{
    if n == 4 {
        put_word(bytes, place, datum);
        return;
    }
    for index in 0..usize::from(n) {
        put_byte(bytes, place, index, datum);
    }
}

/// Puts the four bytes of a word: most stores are of one, and this becomes a single store.
#[inline(always)]
fn put_word(bytes: &mut [u8], place: usize, datum: u32)
    requires { place + 4 ≤ length bytes.old }
    ensures length { length bytes.new ≡ length bytes.old }
    ensures bytes { (k : ℕ) → slice_index bytes.new k
        ≡ written_byte (write_of place 4 datum) k (slice_index bytes.old k) }
{
    put_byte(bytes, place, 0, datum);
    put_byte(bytes, place, 1, datum);
    put_byte(bytes, place, 2, datum);
    put_byte(bytes, place, 3, datum);
}

/// Puts a number's byte `index`, below 4, where those before it were put.
#[inline(always)]
fn put_byte(bytes: &mut [u8], place: usize, index: usize, datum: u32)
    requires size { index < 4 }
    requires within { place + index < length bytes.old }
    ensures length { length bytes.new ≡ length bytes.old }
    ensures bytes { (before : List ℕ)
        → ((k : ℕ) → slice_index bytes.old k
        ≡ written_byte (write_of place index datum) k (slice_index before k))
        → (k : ℕ) → slice_index bytes.new k
        ≡ written_byte (write_of place (index + 1) datum) k (slice_index before k) }
{
    bytes[place + index] = ((datum >> (8 * index)) % 0x100) as u8;
}
