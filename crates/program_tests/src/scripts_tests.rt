//! The words of scripts and of orders.

use crate::rows::{holds, says};
use scripts::{
    Action, OrderRefused, ScriptRefused, ScriptWord, blank_comments, read_order, read_script,
};
use std::alloc::Global;
use std::test::Fail;

static WORDS: [ScriptWord; 7] = [
    ScriptWord {
        action: Action::Fetch { actor: 0 },
        repeat: 1,
    },
    ScriptWord {
        action: Action::Decode { actor: 1, hart: 0 },
        repeat: 1,
    },
    ScriptWord {
        action: Action::Rename {
            actor: 31,
            hart: 15,
        },
        repeat: 2,
    },
    ScriptWord {
        action: Action::Retire { actor: 2, hart: 0 },
        repeat: 100_000,
    },
    ScriptWord {
        action: Action::Issue { actor: 3 },
        repeat: 1,
    },
    ScriptWord {
        action: Action::Complete { actor: 4 },
        repeat: 1,
    },
    ScriptWord {
        action: Action::Unit { actor: 5 },
        repeat: 1,
    },
];

/// The letter of an action, its actor, and its hart where it is for one.
fn parts_of(action: Action) -> (u8, u8, Option<u8>) {
    match action {
        Action::Fetch { actor } => (b'F', actor, None),
        Action::Decode { actor, hart } => (b'D', actor, Some(hart)),
        Action::Rename { actor, hart } => (b'R', actor, Some(hart)),
        Action::Retire { actor, hart } => (b'T', actor, Some(hart)),
        Action::Issue { actor } => (b'I', actor, None),
        Action::Complete { actor } => (b'C', actor, None),
        Action::Unit { actor } => (b'U', actor, None),
    }
}

/// Whether two words are the same action, as often.
fn is_same(word: &ScriptWord, wanted: &ScriptWord) -> bool {
    parts_of(word.action) == parts_of(wanted.action) && word.repeat == wanted.repeat
}

#[test]
fn a_script_is_read_word_by_word(rt: HostRuntime) -> Result<(), Fail> {
    let text = b" F0 D1.0\nR31.15*2 T2.0*100000\n\nI3 C4*1 U5 ";
    let words = read_script(text, rt.alloc())?;
    assert!(rt; words.len() == WORDS.len());
    for (word, wanted) in words.iter().zip(&WORDS) {
        assert!(rt; is_same(word, wanted));
    }
    Ok(())
}

fn refusal(text: &[u8], alloc: Global) -> Option<ScriptRefused> {
    read_script(text, alloc).err()
}

const FIRST: Option<ScriptRefused> = Some(ScriptRefused::Word(1));

const SECOND: Option<ScriptRefused> = Some(ScriptRefused::Word(2));

/// By how many bytes stay.
static CUT: [Option<ScriptRefused>; 12] = [
    None, FIRST, None, FIRST, None, None, SECOND, SECOND, SECOND, None, SECOND, None,
];

#[test]
fn a_script_that_is_cut_is_refused_at_the_word_that_was_cut(rt: HostRuntime) {
    for (count, expected) in CUT.iter().enumerate() {
        let text = "F0*3 D0.0*3".get(..count).expect(&rt, "a part");
        holds(&rt, text, refusal(text.as_bytes(), rt.alloc()) == *expected);
    }
}

/// A bar stands between two.
const NO_WORDS: &str =
    "F0.0|D0|*0|F0*0|F0*01|F0*100001|F32|D0.16|F00|f0|F0\r|F|0|F+0|D0.|D.0|D0.0.0|F0*|F0**2|F0*2*2|\
F 0|F0\t|X0|F-1|D00.0|U3*4294967297";

#[test]
fn nothing_else_is_a_word(rt: HostRuntime) {
    let mut texts = 0u32;
    for text in NO_WORDS.split('|') {
        holds(&rt, text, refusal(text.as_bytes(), rt.alloc()) == FIRST);
        texts = texts.wrapping_add(1);
    }
    assert!(rt; texts == 26);
}

#[test]
fn a_refusal_says_its_word(rt: HostRuntime) {
    assert!(rt; says(&ScriptRefused::Word(2), "script word 2 refused", rt.alloc()));
    assert!(rt; says(&ScriptRefused::Memory, "memory", rt.alloc()));
}

/// Texts, and what is left of them without their comments.
static COMMENTED: [(&str, &str); 9] = [
    ("F0 # F0", "F0     "),
    ("#F0\nF0", "   \nF0"),
    ("F0#x", "F0#x"),
    ("F0 ## F1\n F2 #", "F0      \n F2  "),
    ("\n#\n#\n", "\n \n \n"),
    ("F0\t# x", "F0\t# x"),
    ("F0 \t#x", "F0 \t#x"),
    ("# \u{e4}\r\n0", "     \n0"),
    ("", ""),
];

/// Whether this is left of a text.
fn leaves(text: &str, left: &str, alloc: Global) -> bool {
    let mut bytes = Vec::new(alloc);
    if bytes.extend_from_slice(text.as_bytes()).is_err() {
        return false;
    }
    blank_comments(bytes.as_mut_slice());
    bytes.as_slice() == left.as_bytes()
}

#[test]
fn comments_are_blanked_and_nothing_else(rt: HostRuntime) {
    for (text, left) in &COMMENTED {
        holds(&rt, text, leaves(text, left, rt.alloc()));
    }
}

/// Orders, and the harts that they say or the first word that is none.
static ORDERS: [(&str, Result<&[u8], OrderRefused>); 12] = [
    ("", Ok(&[])),
    (" \n", Ok(&[])),
    ("0 1\n\n 7 255 10 ", Ok(&[0, 1, 7, 255, 10])),
    ("256", Err(OrderRefused::Word(0))),
    ("0 00", Err(OrderRefused::Word(1))),
    ("0 1 01", Err(OrderRefused::Word(2))),
    ("+1", Err(OrderRefused::Word(0))),
    ("0 -1 x", Err(OrderRefused::Word(1))),
    ("0 0 0x1", Err(OrderRefused::Word(2))),
    ("0,1", Err(OrderRefused::Word(0))),
    ("0\t1", Err(OrderRefused::Word(0))),
    ("4294967296", Err(OrderRefused::Word(0))),
];

/// Whether an order's text is read so.
fn is_order(text: &str, wanted: &Result<&[u8], OrderRefused>, alloc: Global) -> bool {
    match (read_order(text.as_bytes(), alloc), wanted) {
        (Ok(harts), Ok(wanted)) => harts.as_slice() == *wanted,
        (Err(refused), Err(wanted)) => refused == *wanted,
        _ => false,
    }
}

#[test]
fn an_order_is_read_word_by_word(rt: HostRuntime) {
    for (text, wanted) in &ORDERS {
        holds(&rt, text, is_order(text, wanted, rt.alloc()));
    }
}

#[test]
fn a_refused_order_says_its_word(rt: HostRuntime) {
    assert!(rt; says(&OrderRefused::Word(2), "order 2 refused 4", rt.alloc()));
    assert!(rt; says(&OrderRefused::Memory, "memory", rt.alloc()));
}
