//! A segment of an image, as it lies in memory.

ghost use Rattle.std.specs.Prelude.{◌≡◌, ◌+◌, ◌<◌, ◌≤◌, ◌↔◌, length, map, find, option_copied, All};
ghost use Rattle.std.specs.Prelude.{IsTrue, IfOk, IfSome};
ghost use Rattle.elf_image.specs.Image.{is_code_segment, is_writable_segment, covers, segment_byte};
ghost use Rattle.elf_image.specs.Image.{byte_among};

use std::alloc::AllocError;
use std::marker::Model;

/// Where a segment starts, its bytes in memory, and its flags: X 1, W 2 and R 4.
#[derive(Drop)]
pub struct Segment {
    address: u32,
    bytes: Vec<u8>,
    flags: u8,
}

impl Model for Segment {
    ghost use Rattle.elf_image.specs.Image.{ProgramSegment};

    ghost Value = { ProgramSegment };

    ghost view = { λ s. record { address = s.address; bytes = s.bytes.items; flags = s.flags } };
}

impl Clone for Segment {
    ghost is_clone = { λ segment copy. copy ≡ segment };

    fn clone(&self) -> Result<Segment, AllocError> {
        Ok(Segment {
            address: self.address,
            // At once: a list's own clone goes byte by byte.
            bytes: Vec::from_slice(*self.bytes.allocator(), self.bytes.as_slice())?,
            flags: self.flags,
        })
    }
}

impl Segment {
    /// The segment of these parts.
    pub fn new(address: u32, bytes: Vec<u8>, flags: u8) -> Segment
        ensures { result ≡ record { address = address; bytes = bytes.items; flags = flags } }
    {
        Segment {
            address,
            bytes,
            flags,
        }
    }

    /// The address of the first byte.
    pub fn address(&self) -> u32
        ensures { result ≡ self.now.address }
    {
        self.address
    }

    /// The bytes in memory.
    pub fn bytes(&self) -> &[u8]
        ensures { result.now ≡ self.now.bytes }
    {
        &self.bytes
    }

    /// The flags: X 1, W 2 and R 4.
    pub fn flags(&self) -> u32
        ensures { result ≡ self.now.flags }
    {
        self.flags as u32
    }

    /// Whether the segment may be executed.
    pub(crate) fn is_code(&self) -> bool
        ensures { result ≡ is_code_segment self.now }
    {
        self.flags % 2 == 1
    }

    /// Whether the segment may be written.
    pub(crate) fn is_writable(&self) -> bool
        ensures { result ≡ is_writable_segment self.now }
    {
        self.flags / 2 % 2 == 1
    }

    /// Whether the address is one of the segment's.
    pub(crate) fn covers(&self, addr: u32) -> bool
        ensures { result ≡ covers self.now addr }
    {
        self.address <= addr && (addr as usize) < self.address as usize + self.bytes.len()
    }

    /// The byte at an address of the segment.
    pub(crate) fn byte_at(&self, addr: u32) -> u8
        requires { IsTrue (covers self.now addr) }
        ensures { result ≡ segment_byte self.now addr }
    {
        self.bytes[(addr - self.address) as usize]
    }

    /// Whether the two have the same address, bytes and flags.
    pub(crate) fn same_as(&self, other: &Segment) -> bool
        ensures { IsTrue result ↔ (self.now ≡ other.now) }
    {
        self.address == other.address && self.flags == other.flags && self.bytes == other.bytes
    }
}

/// The segment that covers an address.
fn covering(segments: &[Segment], addr: u32) -> Option<&Segment>
    ensures first { option_copied result ≡ find (λ segment. covers segment addr) segments.now }
    ensures covers { IfSome result (λ segment. IsTrue (covers segment.now addr)) }
{
    segments.iter().find(|segment| segment.covers(addr))
}

/// The segment that may be executed.
pub(crate) fn code_among(segments: &[Segment]) -> Option<&Segment>
    ensures { option_copied result ≡ find is_code_segment segments.now }
{
    segments.iter().find(|segment| segment.is_code())
}

/// The byte at an address: that of the segment which covers it, and 0 where none does.
pub(crate) fn byte_among(segments: &[Segment], addr: u32) -> u8
    ensures { result ≡ byte_among segments.now addr }
{
    covering(segments, addr).map_or(0, |segment| segment.byte_at(addr))
}

/// Whether the two lists have the same segments in the same order.
pub(crate) fn same_segments(some: &[Segment], others: &[Segment]) -> bool
    ensures { IsTrue result ↔ (some.now ≡ others.now) }
{
    if some.len() != others.len() {
        return false;
    }
    for i in 0..some.len() {
        if !some[i].same_as(&others[i]) {
            return false;
        }
    }
    true
}
