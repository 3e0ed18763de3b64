//! What steps are called: their mnemonics, as they stand in the text of instructions, without ordering bits.

ghost use Rattle.std.specs.Prelude.{◌≡◌};
ghost use Rattle.rv_text.specs.Mnemonic.{load_name, store_name};
ghost use Rattle.story_text.specs.Deeds.{amo_name_of_word, name_of};

use rv_instr::{LoadOp, StoreOp};
use rv_word::AmoKind;
use stories::Deed;

/// The word that a row begins with.
pub fn name_of(deed: &Deed) -> &'static str
    ensures { result.now ≡ name_of deed.now }
{
    match *deed {
        Deed::Loaded { op, .. } => load_name(op),
        Deed::Reserved { .. } => "lr.w",
        Deed::Stored { op, .. } => store_name(op),
        Deed::Conditional { .. } | Deed::Failed { .. } => "sc.w",
        Deed::Atomic { kind, .. } => amo_name(kind),
        Deed::Out(_) => "out",
        Deed::Ended(_) => "ended",
        Deed::Stopped(_) => "stopped",
    }
}

fn load_name(op: LoadOp) -> &'static str
    ensures { result.now ≡ load_name op }
{
    match op {
        LoadOp::Lb => "lb",
        LoadOp::Lh => "lh",
        LoadOp::Lw => "lw",
        LoadOp::Lbu => "lbu",
        LoadOp::Lhu => "lhu",
    }
}

fn store_name(op: StoreOp) -> &'static str
    ensures { result.now ≡ store_name op }
{
    match op {
        StoreOp::Sb => "sb",
        StoreOp::Sh => "sh",
        StoreOp::Sw => "sw",
    }
}

fn amo_name(kind: AmoKind) -> &'static str
    ensures { result.now ≡ amo_name_of_word kind }
{
    match kind {
        AmoKind::Swap => "amoswap.w",
        AmoKind::Add => "amoadd.w",
        AmoKind::Xor => "amoxor.w",
        AmoKind::And => "amoand.w",
        AmoKind::Or => "amoor.w",
        AmoKind::Min => "amomin.w",
        AmoKind::Max => "amomax.w",
        AmoKind::Minu => "amominu.w",
        AmoKind::Maxu => "amomaxu.w",
    }
}
