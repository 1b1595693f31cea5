ghost use Rattle.std.specs.Prelude.{◌<◌, ◌^◌};

use crate::speakers::Loaded;

/// A sample, and what speaks it.
#[derive(Drop)]
pub(crate) struct Sample {
    pub(crate) loaded: Loaded,
    /// How many lines it has.
    pub(crate) count: u32,
    /// The state that its first line is made of.
    pub(crate) start: u32,
    ghost in_range: { start < 2 ^ 31 },
}
