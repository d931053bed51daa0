/// How a child is started.
#[derive(Clone, Copy, Debug)]
pub enum ChildStart {
    /// The task goes on.
    Spawn,
    /// The task waits for the child's end.
    Call,
}
