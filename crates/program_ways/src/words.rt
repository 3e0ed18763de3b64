//! The words of memory that harts share.

ghost use Rattle.std.specs.Prelude.{◌≡◌, All, OnOk};
ghost use Rattle.smt_model.specs.Reservations.{word_of_address};
ghost use Rattle.program_ways.specs.Steps.{location_of};
ghost use Rattle.program_ways.specs.Keeping.{IsWordAddress};

use std::alloc::AllocError;

/// How many words harts share at most.
const MOST_SHARED: usize = 64;

/// The address of the word around an address.
pub(crate) fn word_around(address: u32) -> u32
    ensures { result ≡ word_of_address address }
{
    address - address % 4
}

/// Where a word stands among the shared ones, by their addresses: its location.
pub(crate) fn location_of(shared: &[u32], word: u32) -> Option<usize>
    ensures { result ≡ location_of shared.now word }
{
    shared.iter().position(|one| *one == word)
}

/// Adds the word around an address.
pub(crate) fn push_word(words: &mut Vec<u32>, address: u32) -> Result<(), AllocError>
    requires { All IsWordAddress words.old.items }
    ensures { OnOk result (All IsWordAddress words.new.items) }
{
    words.push(word_around(address))?;
    Ok(())
}

/// A word that was touched.
#[derive(Clone, Copy, Drop)]
struct Touch {
    /// An address in it.
    address: u32,
    /// The hart that touched it first.
    hart: u8,
    /// Whether another one did.
    by_others: bool,
    is_written: bool,
}

/// The words that harts touch on the ways that were followed.
#[derive(Drop)]
pub(crate) struct Touched {
    touches: Vec<Touch>,
}

impl Touched {
    pub fn new(alloc: std::alloc::Global) -> Touched {
        Touched {
            touches: Vec::new(alloc),
        }
    }

    /// A hart touches the word around an address, and may write it.
    pub fn note(&mut self, address: u32, hart: u8, writes: bool) -> Result<(), AllocError> {
        let word = word_around(address);
        for touch in self.touches.iter_mut() {
            if word_around(touch.address) == word {
                touch.by_others = touch.by_others || touch.hart != hart;
                touch.is_written = touch.is_written || writes;
                return Ok(());
            }
        }
        self.touches.push(Touch {
            address,
            hart,
            by_others: false,
            is_written: writes,
        })?;
        Ok(())
    }

    /// Whether there are words that several harts touch, one of which may write it, beside those that are known to be
    /// shared.
    pub fn has_more(&self, shared: &[u32]) -> bool {
        self.touches.iter().any(|touch| is_new(shared, touch))
    }

    /// Adds them. Answers false where there are too many.
    pub fn add_shared(&self, shared: &mut Vec<u32>) -> Result<bool, AllocError>
        requires { All IsWordAddress shared.old.items }
        ensures { OnOk result (All IsWordAddress shared.new.items) }
    {
        for touch in self.touches.iter() {
            if !is_new(shared.as_slice(), touch) {
                continue;
            }
            if shared.len() >= MOST_SHARED {
                return Ok(false);
            }
            push_word(shared, touch.address)?;
        }
        Ok(true)
    }
}

/// Whether several harts touch a word, one of which may write it, and it isn't known to be shared.
fn is_new(shared: &[u32], touch: &Touch) -> bool {
    let is_shared = touch.by_others && touch.is_written;
    is_shared && location_of(shared, word_around(touch.address)).is_none()
}
