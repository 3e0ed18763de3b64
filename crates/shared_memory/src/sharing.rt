//! Which accesses share a byte.

ghost use Rattle.std.specs.Prelude.{◌≡◌, ◌+◌, nat_lt};
ghost use Rattle.smt_model.specs.Touched.{shares_byte};

/// Whether the `n` bytes from `a` and the `m` bytes from `b` share one.
pub fn touches(a: u32, n: u8, b: u32, m: u8) -> bool
    ensures { result ≡ shares_byte a n b m }
{
    (0 < n && 0 < m) && (begins_before_end(a, b, m) && begins_before_end(b, a, n))
}

/// Whether an address lies below the end of the `n` bytes from `start`.
fn begins_before_end(addr: u32, start: u32, n: u8) -> bool
    ensures { result ≡ nat_lt addr (start + n) }
{
    u64::from(addr) < u64::from(start) + u64::from(n)
}
