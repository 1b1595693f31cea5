// What a job wants to be loaded.

/// What is said of each line.
#[derive(Clone, Copy, Debug, PartialEq, Eq)]
pub(crate) enum Mode {
    /// What the classifier writes for it.
    Classify,
    /// Its words.
    Speak,
}

/// A setup, and what is to be said of each line by it.
#[derive(Clone, Copy, Debug)]
pub(crate) struct Request<'a> {
    /// The name of its file.
    pub(crate) setup: &'a str,
    pub(crate) mode: Mode,
}
