use events::Event;
use exec_units::Job;

/// What a step that needs no more than its actor and hart answers.
#[derive(Clone, Copy, PartialEq, Eq, Drop)]
pub enum Answer {
    /// The step was made, and the history has this event more.
    Done(Event),
    /// There is room in the history, and no such step can be made now.
    Idle,
    /// The history has as many events as it may have.
    Full,
}

/// What an issue answers. The job must be worked or abandoned.
pub enum IssueAnswer {
    Job(Job, Event),
    Idle,
    Full,
}

/// What a completion answers.
#[derive(Clone, Copy, PartialEq, Eq, Drop)]
pub enum CompleteAnswer {
    /// The event is a completion, or a drop where the instruction was squashed meanwhile.
    Done(Event),
    /// There is room in the history, and the actor has no open job of this number, instruction, pc
    /// and operands.
    Stranger,
    /// The history has as many events as it may have.
    Full,
}
