//! Lists of what is watched.

ghost use Rattle.std.specs.Prelude.{◌≡◌, ◌∷◌, ◌++◌, [], length, IfOk, IfErr, OnOk};
ghost use Rattle.symbols.specs.Tables.{table_of};
ghost use Rattle.outcome_queries.specs.declared.watched.Asked.{Asked as AnyAsked};
ghost use Rattle.outcome_queries.specs.Asking.{Asks};
ghost use Rattle.outcome_queries.specs.Watched.{IsUnnamed};
ghost use Rattle.outcome_queries.specs.Lists.{IsSeparated, IsRefusedFor, IsPartRefused};

use crate::quoted::split_outside;
use crate::refused::{Expected, QueryRefused};
use crate::watched::{Asked, read_watched};
use arrayvec::ArrayVec;
use symbols::Symbols;
use watched_outcomes::MOST_WATCHED;

/// What is watched, in the order in which it was named.
pub type WatchList<'a> = ArrayVec<Asked<'a>, MOST_WATCHED>;

/// Reads a list of what is watched: registers at harts, and places in memory by their addresses or by names of the
/// program, apart by commas, `MOST_WATCHED` at most, as `a0@1,x5@0,80001000:4,counter`.
pub fn read_watch_list<'a>(
    text: &'a [u8],
    names: &Symbols<'_>,
) -> Result<WatchList<'a>, QueryRefused>
    ensures read { IfOk result (λ list. IsSeparated (Asks (table_of names.now)) 44 text.now list.items) }
    ensures refused { IfErr result
        (IsRefusedFor (Asks (table_of names.now)) (IsUnnamed (table_of names.now)) 44 text.now) }
{
    let mut list = WatchList::new();
    let mut rest = text;
    while let Some((first, others)) = split_outside(rest, b',') {
        take(&mut list, first, names, text.len() - rest.len() + 1)?;
        rest = others;
    }
    match take(&mut list, rest, names, text.len() - rest.len() + 1) {
        Ok(()) => Ok(list),
        Err(refused) => Err(refused),
    }
}

/// Puts what a part names behind a list. The part begins at this column.
fn take<'a>(
    list: &mut WatchList<'a>,
    part: &'a [u8],
    names: &Symbols<'_>,
    column: usize,
) -> Result<(), QueryRefused>
    ensures taken { OnOk result ((one : AnyAsked) × Asks (table_of names.now) part.now one
        × (list.new.items ≡ list.old.items ++ one ∷ [])) }
    ensures refused { IfErr result (λ why. IsPartRefused (Asks (table_of names.now)) (IsUnnamed (table_of names.now))
        (length list.old.items) part.now why.expected) }
    ensures place { IfErr result (λ why. why.column ≡ column) }
{
    let watched = match read_watched(part, names) {
        Ok(watched) => watched,
        Err(expected) => return Err(QueryRefused { column, expected }),
    };
    if list.is_full() {
        return Err(QueryRefused {
            column,
            expected: Expected::End,
        });
    }
    list.push(Asked {
        watched,
        spelled: part,
    });
    Ok(())
}
