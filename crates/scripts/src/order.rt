ghost use Rattle.std.specs.Prelude.{◌≡◌, IfOk, IfErr};
ghost use Rattle.scripts.specs.declared.order.OrderRefused.TheVariants.{Memory};
ghost use Rattle.scripts.specs.Order.{IsOrder, IsOrderRefusedFor};

use crate::fields::read_hart;
use crate::splitting::first_piece;
use std::alloc::{AllocFailed, Global};
use thiserror::Error;

/// Why an order of harts was refused.
#[derive(Clone, Copy, Debug, PartialEq, Eq, Drop, Error)]
pub enum OrderRefused {
    /// This word, from 0, is the first that is no number 0 to 255.
    #[error("order {0} refused 4")]
    Word(usize),
    #[error("memory")]
    Memory,
}

impl From<AllocFailed<u8>> for OrderRefused {
    ghost from_gives = { λ _ e. e ≡ Memory };

    fn from(_error: AllocFailed<u8>) -> Self {
        OrderRefused::Memory
    }
}

/// Reads an order of harts: words apart by spaces or newlines, each a decimal number 0 to 255
/// without leading zeros. An empty order has no words.
pub fn read_order(bytes: &[u8], alloc: Global) -> Result<Vec<u8>, OrderRefused>
    ensures ok { IfOk result (λ harts. IsOrder bytes.now harts.items) }
    ensures refused { IfErr result (IsOrderRefusedFor bytes.now) }
{
    let mut harts = Vec::new(alloc);
    let mut text = bytes;
    while let Some((piece, rest)) = first_piece(text) {
        let Some(hart) = read_hart(piece) else {
            return Err(OrderRefused::Word(harts.len()));
        };
        harts.push(hart)?;
        text = rest;
    }
    Ok(harts)
}
