/// A number as a litmus test writes it.
#[derive(Clone, Copy, Debug, PartialEq, Eq, Drop)]
pub enum Value {
    /// The number itself, of 32 bits; a negative one in two's complement.
    Number(u32),
    /// The address of a byte of the locations, by how many bytes it stands behind the first of all of them.
    Address(usize),
}
