//! How large a server is.

/// How many workers a server has, how many threads run their tasks and how many handle connections, and the most
/// connections that it accepts.
#[derive(Clone, Copy, Debug, PartialEq, Eq, Drop)]
pub struct Sizes {
    /// Workers, 1 to 64. Each has a herder's thread.
    pub workers: u32,
    /// Threads that run tasks, 1 to 64. Instance k is run by thread k mod `runners`.
    pub runners: u32,
    /// Threads that handle connections, 1 to 64.
    pub handlers: u32,
    /// The most connections, 1 to 10,000.
    pub conns: u32,
}
