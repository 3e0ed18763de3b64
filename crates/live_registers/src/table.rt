ghost use Rattle.std.specs.Prelude.{◌≡◌, ◌<◌};
ghost use Rattle.live_registers.specs.Table.{row_at, live_of, kept_of, IsAllAlike};

use rv_instr::Reg;

/// How many registers a hart has.
pub(crate) const REGISTERS: usize = 32;

/// Which registers are live at a word.
#[derive(Clone, Copy, Drop)]
pub struct Row {
    pub live: [bool; REGISTERS],
    /// Whether the hart's reservation may be used yet.
    pub kept: bool,
}

impl Row {
    /// A row in which all registers are live and the reservation is kept, or none is.
    #[tactic(auto, unfolding(crate::specs::Table::all_alike))]
    pub(crate) fn all(live: bool) -> Self
        ensures { IsAllAlike live result }
    {
        Row {
            live: [live; REGISTERS],
            kept: live,
        }
    }
}

/// Which registers are live at each word of a code that begins at `start`, and whether a reservation is kept there.
#[derive(Drop)]
pub struct LiveTable {
    /// Every register is live everywhere, and each reservation kept, whatever the rows say.
    pub everywhere: bool,
    pub start: u32,
    pub rows: Vec<Row>,
}

impl LiveTable {
    /// The row of the word at a pc, where the code has one.
    pub(crate) fn row_at(&self, pc: u32) -> Option<Row>
        ensures { result ≡ row_at self.now pc }
    {
        let offset = pc.checked_sub(self.start)?;
        if offset % 4 != 0 {
            return None;
        }
        self.rows.get((offset / 4) as usize).copied()
    }

    /// Whether a register is live at a pc: where there is no word none is.
    pub fn is_live(&self, pc: u32, register: Reg) -> bool
        requires { register < 32 }
        ensures { result ≡ live_of self.now pc register }
    {
        self.everywhere
            || match self.row_at(pc) {
                Some(row) => row.live[usize::from(register)],
                None => false,
            }
    }

    /// Whether a reservation may be used yet at a pc: where there is no word it isn't.
    pub fn is_kept(&self, pc: u32) -> bool
        ensures { result ≡ kept_of self.now pc }
    {
        self.everywhere
            || match self.row_at(pc) {
                Some(row) => row.kept,
                None => false,
            }
    }
}
