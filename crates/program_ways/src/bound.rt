//! Why the ways of a program aren't told.

/// What a program has more of, or else, than is followed.
#[derive(Clone, Copy, Debug, PartialEq, Eq, Drop)]
pub enum Bound {
    /// A hart makes more accesses to what harts share.
    Accesses { hart: u8 },
    /// A hart makes more steps without an access to what harts share.
    Steps { hart: u8 },
    /// There are more ways of a hart, or more accesses on all of them.
    Ways { hart: u8 },
    /// The instruction at this pc accesses a byte or a half of a word that harts share.
    Part { pc: u32 },
    /// The instruction at this pc may write the code.
    Code { pc: u32 },
    /// Harts share more words.
    Words,
    /// A location may have more numbers, or they grow on and on.
    Numbers,
}
