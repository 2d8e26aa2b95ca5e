//! The words of `live`.

/// What the words of `live` ask for.
#[derive(Clone, Copy)]
pub struct LiveWords<'a> {
    /// The file of the nodes.
    pub config: &'a str,
    /// The host of the one node that lives; without it all do.
    pub node: Option<&'a str>,
    /// How many seconds at most.
    pub seconds: Option<&'a str>,
    /// The folder where logs are written.
    pub log: Option<&'a str>,
    /// Whether each node tells a line a second.
    pub stats: bool,
}
