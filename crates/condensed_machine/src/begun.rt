use crate::state::State;
use numbers::sizes::HART_ROOM;

/// How a search begins: its first state, and by how many local steps each hart in turn has come there.
#[derive(Clone, Copy, Drop)]
pub struct Begun {
    pub state: State,
    pub ways: [u16; HART_ROOM],
}
