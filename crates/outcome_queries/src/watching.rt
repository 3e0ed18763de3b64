//! What is watched for a list and a condition.

ghost use Rattle.std.specs.Prelude.{◌≡◌, ◌≤◌, ◌∷◌, ◌++◌, [], true, false, length, All, IfSome, IfNone};
ghost use Rattle.outcome_queries.specs.Watches.{registers_in, words_in, asked_of, asked_in, memory_asked};
ghost use Rattle.outcome_queries.specs.Watches.{registers_asked};
ghost use Rattle.outcome_queries.specs.Watches.{Extends, IsOnceBehind, IsWatchedFor, IsWatchedIn, LacksRoom};

use crate::list::WatchList;
use crate::term::Term;
use crate::watched::{Asked, Watched};
use arrayvec::ArrayVec;
use watched_outcomes::{MOST_WATCHED, Watch, WatchedBytes, WatchedRegister};

/// What a list names and behind it what the terms of a condition name, each once, where it is named first; none
/// where that is more than can be watched.
pub fn with_terms<'a>(list: &[Asked<'a>], terms: &[Term<'a>]) -> Option<WatchList<'a>>
    ensures once { IfSome result
        (λ all. IsOnceBehind [] (list.now ++ asked_in terms.now) all.items) }
    ensures watched { IfSome result (λ all. All (IsWatchedFor all.items) terms.now) }
    ensures none { IfNone result (LacksRoom [] (list.now ++ asked_in terms.now)) }
{
    let mut all = WatchList::new();
    for asked in list {
        if !add(&mut all, *asked) {
            return None;
        }
    }
    for term in terms {
        if !add_term(&mut all, *term) {
            return None;
        }
    }
    Some(all)
}

/// Adds what a term names, unless it is there. Answers whether there was room.
fn add_term<'a>(all: &mut WatchList<'a>, term: Term<'a>) -> bool
    ensures extends { Extends all.old.items all.new.items }
    ensures once { result ≡ true → IsOnceBehind all.old.items (asked_of term.entry) all.new.items }
    ensures watched { result ≡ true → IsWatchedFor all.new.items term.entry }
    ensures full { result ≡ false → LacksRoom all.old.items (asked_of term.entry) }
{
    match term {
        Term::Holds { asked, .. } => add(all, asked),
        Term::Ended { .. } | Term::Stopped { .. } | Term::Put { .. } => true,
    }
}

/// Adds what is asked for, unless it is watched already. Answers whether there was room.
fn add<'a>(all: &mut WatchList<'a>, asked: Asked<'a>) -> bool
    ensures extends { Extends all.old.items all.new.items }
    ensures once { result ≡ true → IsOnceBehind all.old.items (asked.entry ∷ []) all.new.items }
    ensures contained { result ≡ true → IsWatchedIn all.new.items asked.entry.watched }
    ensures full { result ≡ false → LacksRoom all.old.items (asked.entry ∷ []) }
{
    if is_watched(all.as_slice(), asked.watched) {
        return true;
    }
    if all.is_full() {
        return false;
    }
    all.push(asked);
    true
}

/// Whether something is asked for in a list.
fn is_watched(list: &[Asked<'_>], watched: Watched) -> bool
    ensures yes { result ≡ true → IsWatchedIn list.now watched }
    ensures no { result ≡ false → IsWatchedIn list.now watched → ⊥ }
{
    list.iter().any(|asked| asked.watched == watched)
}

/// What a list asks for, apart: the registers, and the bytes of memory, each in the list's order. So they stand in a
/// line.
#[derive(Drop)]
pub struct Columns<'a> {
    pub registers: WatchList<'a>,
    pub words: WatchList<'a>,
}

/// The columns of a list.
pub fn columns_of<'a>(list: &[Asked<'a>]) -> Columns<'a>
    requires { length list.now ≤ 64 }
    ensures registers { result.registers.items ≡ registers_asked list.now }
    ensures words { result.words.items ≡ memory_asked list.now }
{
    let mut registers = WatchList::new();
    let mut words = WatchList::new();
    for asked in list {
        match asked.watched {
            Watched::Register { .. } => registers.push(*asked),
            Watched::Bytes(_) => words.push(*asked),
        }
    }
    Columns { registers, words }
}

/// The registers and the bytes of memory of a list, each in its order.
pub fn watch_of(list: &[Asked<'_>]) -> Watch
    requires { length list.now ≤ 64 }
    ensures registers { result.registers.items ≡ registers_in list.now }
    ensures words { result.words.items ≡ words_in list.now }
{
    let mut registers = ArrayVec::<WatchedRegister, MOST_WATCHED>::new();
    let mut words = ArrayVec::<WatchedBytes, MOST_WATCHED>::new();
    for asked in list {
        match asked.watched {
            Watched::Register { hart, register } => {
                registers.push(WatchedRegister { hart, register });
            }
            Watched::Bytes(bytes) => words.push(bytes),
        }
    }
    Watch { registers, words }
}
