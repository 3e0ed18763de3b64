//! The fields of a word, and the numbers that its immediates spell (RISC-V Unprivileged ISA,
//! chapter "RV32I").

ghost use Rattle.std.specs.Prelude.{◌≡◌, ◌<◌, ◌≤◌, ◌*◌, ◌^◌, nat_lt, pos, ◌-ℤ◌, if◌then◌else◌};
ghost use Rattle.rv_instr.specs.Fields.{
  bits_at,
  rd_at,
  rs1_at,
  rs2_at,
  ordering_at,
  imm_i,
  imm_s,
  imm_b,
  imm_u,
  imm_j,
};

use rv_instr::{Ordering, Reg};

/// The `len` bits of a word that begin at bit `low`.
pub fn bits(word: u32, low: u32, len: u32) -> u32
    requires low { low < 32 }
    requires len { len < 32 }
    ensures { result ≡ bits_at word low len }
{
    (word >> low) % (1 << len)
}

pub(crate) fn rd(word: u32) -> Reg
    ensures { result ≡ rd_at word }
{
    bits(word, 7, 5) as u8
}

pub(crate) fn rs1(word: u32) -> Reg
    ensures { result ≡ rs1_at word }
{
    bits(word, 15, 5) as u8
}

pub(crate) fn rs2(word: u32) -> Reg
    ensures { result ≡ rs2_at word }
{
    bits(word, 20, 5) as u8
}

pub(crate) fn ordering(word: u32) -> Ordering
    ensures { result ≡ ordering_at word }
{
    Ordering {
        aq: bits(word, 26, 1) == 1,
        rl: bits(word, 25, 1) == 1,
    }
}

/// The number that bits spell in two's complement, where the topmost bit weighs `sign`.
fn extend(bits: u32, sign: u32) -> i32
    requires sign { sign ≤ 2 ^ 20 }
    requires bits { bits < 2 * sign }
    ensures { result ≡ (if nat_lt bits sign then pos bits else (pos bits -ℤ pos (2 * sign))) }
{
    if bits < sign {
        bits as i32
    } else {
        bits as i32 - 2 * sign as i32
    }
}

pub(crate) fn immediate_i(word: u32) -> i32
    ensures { result ≡ imm_i word }
{
    extend(bits(word, 20, 12), 0x800)
}

pub(crate) fn immediate_s(word: u32) -> i32
    ensures { result ≡ imm_s word }
{
    extend(bits(word, 25, 7) * 0x20 + bits(word, 7, 5), 0x800)
}

pub(crate) fn immediate_b(word: u32) -> i32
    ensures { result ≡ imm_b word }
{
    extend(
        bits(word, 31, 1) * 0x1000
            + bits(word, 7, 1) * 0x800
            + bits(word, 25, 6) * 0x20
            + bits(word, 8, 4) * 2,
        0x1000,
    )
}

pub(crate) fn immediate_u(word: u32) -> u32
    ensures { result ≡ imm_u word }
{
    bits(word, 12, 20) * 0x1000
}

pub(crate) fn immediate_j(word: u32) -> i32
    ensures { result ≡ imm_j word }
{
    extend(
        bits(word, 31, 1) * 0x100000
            + bits(word, 12, 8) * 0x1000
            + bits(word, 20, 1) * 0x800
            + bits(word, 21, 10) * 2,
        0x100000,
    )
}
