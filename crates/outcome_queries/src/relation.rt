//! How numbers are compared.

ghost use Rattle.std.specs.Prelude.{◌≡◌};
ghost use Rattle.outcome_queries.specs.Relations.{compares, is_told, is_equality};

/// How a number is compared with the one that a term says; numbers have no sign.
#[derive(Clone, Copy, Debug, PartialEq, Eq, Drop)]
pub enum Relation {
    /// `=`
    Equal,
    /// `!=`, wherever `=` doesn't hold
    Other,
    /// `<`
    Below,
    /// `>=`
    AtLeast,
}

/// Whether a number that was found is as a term says. Where none was found, it is other than each.
pub(crate) fn compares(relation: Relation, found: Option<u32>, value: u32) -> bool
    ensures { result ≡ compares relation found value }
{
    match found {
        Some(number) => match relation {
            Relation::Equal => number == value,
            Relation::Other => number != value,
            Relation::Below => number < value,
            Relation::AtLeast => number >= value,
        },
        None => match relation {
            Relation::Other => true,
            Relation::Equal | Relation::Below | Relation::AtLeast => false,
        },
    }
}

/// Whether something is as a term says that has no order: so, or with `!=` not so.
pub(crate) fn is_told(relation: Relation, is_so: bool) -> bool
    ensures { result ≡ is_told relation is_so }
{
    match relation {
        Relation::Equal => is_so,
        Relation::Other => !is_so,
        Relation::Below | Relation::AtLeast => false,
    }
}

/// Whether it asks for no order.
pub(crate) fn is_equality(relation: Relation) -> bool
    ensures { result ≡ is_equality relation }
{
    match relation {
        Relation::Equal | Relation::Other => true,
        Relation::Below | Relation::AtLeast => false,
    }
}
