//! What the program is asked for.

/// What is to be done.
#[derive(Clone, Copy, Debug, PartialEq, Eq)]
pub enum Mode {
    /// To perform the session that is read.
    Run,
    /// To judge the session that is read.
    Check,
    /// To make a session.
    Make {
        /// How many directives it has: 1 to 20,000.
        number: u32,
        /// Whether its text is wanted, and not what performing it comes to.
        text: bool,
    },
}

/// What the words ask for.
#[derive(Clone, Copy, Debug, PartialEq, Eq)]
pub struct Invocation {
    /// What is to be done.
    pub mode: Mode,
    /// How many statements a simulation runs at most: 1 to 100,000,000.
    pub limit: u64,
    /// Into how many pieces a batch is cut at most: 1 to 64.
    pub pieces: u32,
    /// Whether the clients go in rounds, command by command.
    pub serial: bool,
    /// Whether replies tell how many statements a simulation ran.
    pub stats: bool,
    /// Whether the refusal of a session is told as a text, with its cause: never with [`Mode::Make`].
    pub explain: bool,
    /// Whether replies tell more of each run: only with [`Mode::Run`].
    pub detail: bool,
}
