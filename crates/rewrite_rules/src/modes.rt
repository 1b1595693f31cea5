// Whether a rewrite has to be made.

/// Whether a rewrite that can begin has to be made.
#[derive(Clone, Copy, Debug, PartialEq, Eq)]
pub enum RewriteMode {
    /// Where a rewrite can begin, nothing is copied.
    Obligatory,
    /// Where a rewrite can begin, the next byte may be copied all the same.
    Optional,
}
