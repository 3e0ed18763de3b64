ghost use Rattle.core_lock.specs.BoardRule.{IsConsistent, IsLook, IsPost, IsStop};
ghost use Rattle.core_lock.specs.Knowledge.{from, own_first, without_first};

use atomic_table::{Play, Split, TableRule};
use std::collections::LinkedList;

/// What a seat knows. No value of it is made: it is there for the contracts.
pub struct Knowledge {
    /// The seat's own words begin with this one.
    pub first: u64,
    /// They end before this one.
    pub end: u64,
    /// The greatest reason for which it has asked to stop, 1 to 4; 0 for none.
    pub asked: u64,
    /// What it has seen last of each word.
    pub seen: LinkedList<u64>,
}

/// The rule that the words and all seats' knowledge keep to, between any two steps.
pub struct BoardRule;

impl TableRule<u8, Knowledge, ()> for BoardRule {
    ghost holds = { λ key table. IsConsistent table.words table.views };

    ghost first = { λ key. from 0 };
}

/// What a look at a word tells.
pub(crate) struct Look;

impl Play<u8, Knowledge> for Look {
    ghost then = { λ step before found after. IsLook step.word before.0 found after.0 };
}

/// What a post of a count tells.
pub(crate) struct Post;

impl Play<u8, Knowledge> for Post {
    ghost then = { λ step before stored after. IsPost step.word before.0 stored after.0 };
}

/// What an ask to stop tells.
pub(crate) struct Stop;

impl Play<u8, Knowledge> for Stop {
    ghost then = { λ step before found after. IsStop step.first before.0 found after.0 };
}

/// Splits a seat's rights: the first of its own words goes to a new seat.
pub(crate) struct Deal;

impl Split<Knowledge> for Deal {
    ghost left = { without_first };

    ghost right = { own_first };
}
