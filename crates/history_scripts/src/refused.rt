use thiserror::Error;

/// Why a list of events has no script.
#[derive(Clone, Copy, Debug, PartialEq, Eq, Drop, Error)]
pub enum ScriptRefused {
    /// The configuration isn't one of a core, or there are more than `MOST_EVENTS` events.
    #[error("config refused")]
    Config,
    /// The event at this place, from 0, is the first that isn't allowed, and the rule the first that
    /// it breaks.
    #[error("event {index} refused rule {rule}")]
    Event { index: u32, rule: u8 },
    /// The fetch at this place, from 0, predicts something else than the predictor.
    #[error("event {0} predicted otherwise")]
    Prediction(u32),
    /// The rename at this place, from 0, takes a register that isn't the least free one.
    #[error("event {0} not the least register")]
    Register(u32),
    /// There isn't enough memory.
    #[error("memory")]
    Memory,
}
