//! What is said of an order.

ghost use Rattle.std.specs.Prelude.{◌≡◌, ◌≤◌, IfOk, codes};
ghost use Rattle.scripts.specs.Order.{IsOrder};
ghost use Rattle.explanations.specs.Explained.{Begins};
ghost use Rattle.explained_words.specs.Explained.{IsOrderExplained, IsOrderFault, place_of, reason_of};
ghost use Rattle.explained_words.specs.Explained.{order_head, refused_order};

use crate::listing::Listing;
use crate::misspelled::write_usual;
use crate::placed::{Placed, Words};
use crate::shown::{write_placed, write_word};
use arrayvec::ArrayString;
use elf_image::Image;
use explanations::{joined, no_memory};
use plain_run::{OrderStopped, run_order};
use sc_machine::{Plain, Stopped};
use scripts::{OrderRefused, read_order};
use std::alloc::{AllocError, Global};
use std::io::Write;
use std::{fmt, io};
use text_fields::{push_decimal, push_small_number, read_decimal};

/// What is said of an order.
#[derive(Drop)]
pub struct OrderExplained {
    /// Why the plain machine doesn't follow it; none where it does.
    pub refused: Option<OrderFault>,
    /// Lines for a person. The first says whether the order is accepted.
    pub text: Vec<u8>,
}

/// Why the plain machine doesn't follow an order.
#[derive(Clone, Copy, PartialEq, Eq, Drop)]
pub enum OrderFault {
    /// This word, from 0, is the first that is no number 0 to 255.
    Word(usize),
    /// The step of this word, from 0, is the first that isn't made.
    Step { index: usize, why: Stopped },
}

impl OrderFault {
    /// The place of the word, from 0.
    fn place(self) -> usize
        ensures { result ≡ place_of self }
    {
        match self {
            OrderFault::Word(index) => index,
            OrderFault::Step { index, .. } => index,
        }
    }

    /// The number of the reason, 1 to 4.
    fn number(self) -> u8
        ensures { result ≡ reason_of self }
    {
        match self {
            OrderFault::Word(_) => 4,
            OrderFault::Step { why, .. } => why.number(),
        }
    }
}

/// Why a hart of an order makes no step.
#[derive(Clone, Copy, Drop)]
struct NoStep {
    hart: u8,
    why: Stopped,
}

impl fmt::Display for NoStep {
    fn fmt<W: fmt::Write>(&self, f: &mut fmt::Formatter<W>) -> fmt::Result {
        let hart = self.hart;
        match self.why {
            Stopped::NotGoing => write!(f, "hart {hart} has ended or stopped"),
            Stopped::OutputFull => write!(f, "no room for a byte that hart {hart} puts out"),
            Stopped::NoHart => write!(f, "hart {hart} isn't there"),
        }
    }
}

/// Says of an order's text how often each of so many harts is named, and which words make no step where the plain
/// machine of this image passes over them; or which word is refused, and what may stand there. Fails only for want of
/// memory.
pub fn explain_order(
    text: &[u8],
    image: &Image,
    harts: u8,
    alloc: Global,
) -> Result<OrderExplained, AllocError>
    ensures { IfOk result (IsOrderExplained image.now harts text.now) }
{
    match read_order(text, alloc) {
        Ok(order) => explain_harts(text, order.as_slice(), image, harts, alloc),
        Err(OrderRefused::Word(index)) => {
            let refused = Some(OrderFault::Word(index));
            let said = misspelled_text(text, index, refused, alloc)?;
            Ok(OrderExplained {
                refused,
                text: said,
            })
        }
        Err(OrderRefused::Memory) => Err(AllocError),
    }
}

/// The same of an order whose words are these harts.
fn explain_harts(
    text: &[u8],
    order: &[u8],
    image: &Image,
    harts: u8,
    alloc: Global,
) -> Result<OrderExplained, AllocError>
    requires { IsOrder text.now order.now }
    ensures { IfOk result (IsOrderExplained image.now harts text.now) }
{
    let refused = match run_order(image, harts, order, alloc) {
        Ok(_) => None,
        Err(OrderStopped::Step { index, why }) => Some(OrderFault::Step { index, why }),
        Err(OrderStopped::Harts) => return Err(AllocError),
        Err(OrderStopped::Memory) => return Err(AllocError),
    };
    let said = harts_text(text, order, image, harts, refused, alloc)?;
    Ok(OrderExplained {
        refused,
        text: said,
    })
}

/// What is said of an order whose words are these harts.
fn harts_text(
    text: &[u8],
    order: &[u8],
    image: &Image,
    harts: u8,
    refused: Option<OrderFault>,
    alloc: Global,
) -> Result<Vec<u8>, AllocError>
    ensures { IfOk result (λ said. Begins (order_head refused) said.items) }
{
    let mut rest = Vec::new(alloc);
    match write_harts(text, order, image, harts, &mut rest, alloc) {
        Ok(()) => with_head(refused, &rest, alloc),
        Err(_) => Err(AllocError),
    }
}

/// What is said where the word at this place is no number.
fn misspelled_text(
    text: &[u8],
    index: usize,
    refused: Option<OrderFault>,
    alloc: Global,
) -> Result<Vec<u8>, AllocError>
    ensures { IfOk result (λ said. Begins (order_head refused) said.items) }
{
    let mut rest = Vec::new(alloc);
    let placed = Words::of(text).nth_word(index);
    match write_no_hart(&placed, &mut rest) {
        Ok(()) => with_head(refused, &rest, alloc),
        Err(_) => Err(AllocError),
    }
}

/// The first line of an order with this fault or none, and what comes behind it.
fn with_head(refused: Option<OrderFault>, rest: &[u8], alloc: Global) -> Result<Vec<u8>, AllocError>
    ensures { IfOk result (λ said. Begins (order_head refused) said.items) }
{
    match refused {
        Some(fault) => joined(refused_line(fault).as_bytes(), rest, alloc),
        None => joined(b"order accepted\n", rest, alloc),
    }
}

/// The first line where the order has this fault.
fn refused_line(fault: OrderFault) -> ArrayString<40>
    ensures { result.bytes ≡ refused_order fault }
{
    let mut line = ArrayString::new();
    line.push_str("order refused ");
    push_decimal(&mut line, fault.place());
    line.push_str(" ");
    push_small_number(&mut line, fault.number());
    line.push_str("\n");
    line
}

/// Writes where a word stands that names no hart, which was meant, and what may stand there.
fn write_no_hart<W: Write>(placed: &Placed<'_>, out: &mut W) -> io::Result<()> {
    write_placed(placed, out)?;
    out.write_all(b"\n")?;
    if let Some(hart) = meant_hart(placed.word) {
        write_word(placed.word, out)?;
        writeln!(out, ": did you mean `{hart}`?")?;
    }
    out.write_all(b"expected: a hart: a number 0 to 255 without leading zeros\n")?;
    write_usual(placed.word, out)
}

/// The hart that is meant by a word of letters, signs or zeros before a number.
fn meant_hart(word: &[u8]) -> Option<u32> {
    let start = word
        .iter()
        .position(|byte| matches!(byte, b'1'..=b'9'))
        .unwrap_or(word.len().saturating_sub(1));
    let before = word.get(..start)?;
    if !before.iter().all(|byte| byte.is_ascii_graphic()) {
        return None;
    }
    read_decimal(word.get(start..)?, 255).ok()
}

/// Writes how many words there are, how often each hart is named, and which words make no step.
fn write_harts<W: Write>(
    text: &[u8],
    order: &[u8],
    image: &Image,
    harts: u8,
    out: &mut W,
    alloc: Global,
) -> io::Result<()> {
    let Ok(mut machine) = Plain::new(image, harts, order.len(), alloc) else {
        return Err(no_memory());
    };
    let mut named = [0u64; 256];
    let mut placed = Words::of(text);
    let mut idle = Listing::new(alloc);
    for hart in order {
        let place = placed.next_word();
        let count = &mut named[usize::from(*hart)];
        *count = count.saturating_add(1);
        if let Err(why) = machine.step(*hart) {
            idle.add(&place, &NoStep { hart: *hart, why })?;
        }
    }
    writeln!(out, "words {}", order.len())?;
    for (hart, count) in named.iter().enumerate() {
        if hart < usize::from(harts) {
            writeln!(out, "hart {hart}: {count}")?;
        } else if *count > 0 {
            writeln!(out, "hart {hart} not there: {count}")?;
        }
    }
    idle.write("words without a step", out)
}
