//! What the words ask for.

/// A run of the program.
#[derive(Clone, Copy, Debug, Drop)]
pub struct Asked<'a> {
    pub mode: Mode<'a>,
    pub settings: Settings,
}

/// How a run goes about it. What is said of a line doesn't depend on it.
#[derive(Clone, Copy, Debug, PartialEq, Eq)]
pub struct Settings {
    /// How many expansions are kept at once: 1 to 4,096.
    pub places: u32,
    /// How many workers speak lines side by side: 1 to 63.
    pub jobs: u32,
    /// How often one more worker sweeps the table while a batch of lines is spoken: 0 to 10,000. With 0 there is none.
    pub sweep: u32,
    /// Whether it is told what was looked up for each line.
    pub report: bool,
}

/// What a run does, with what it needs for it.
#[derive(Clone, Copy, Debug, Drop)]
pub enum Mode<'a> {
    /// Speaks the lines of the input by the setup of this name.
    Speak { setup: &'a str },
    /// Classifies the lines of the input.
    Classify { setup: &'a str },
    /// Reads the setup and its grammars, and no input.
    Check { setup: &'a str },
    /// Makes lines and speaks them: so many (1 to 100,000), from a state of their generator (below 2^31).
    Sample { count: u32, start: u32 },
}
