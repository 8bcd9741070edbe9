//! What the core did on an event.
use events::Effects;

/// The dispatch after an event.
#[derive(Clone, Copy)]
pub enum Dispatch {
    /// The event was a query, which no dispatch follows.
    Query,
    /// Memory was refused, and the dispatch changed nothing.
    OutOfMemory,
    /// No job is ready, and no plan was made.
    Idle,
    /// A plan was made; [`crate::Core::begun`] has the jobs that began with it.
    Planned,
}

/// An event that was handled: the effects of its step, and the dispatch after it.
#[derive(Drop)]
pub struct Handled {
    pub effects: Effects,
    pub dispatch: Dispatch,
}
