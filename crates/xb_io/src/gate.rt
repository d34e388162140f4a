/// What a worker calls before it takes up a task. It answers nothing, so it changes no result; a test
/// may hold a worker there to show that two of them run at once.
pub trait Gate {
    /// Worker `worker` is about to take up task `task`.
    fn enter(&self, worker: u32, task: u32);
}

/// The gate that does nothing.
#[derive(Clone, Copy, Default, PartialEq, Eq)]
pub struct OpenGate;

impl Gate for OpenGate {
    fn enter(&self, _worker: u32, _task: u32) {}
}
