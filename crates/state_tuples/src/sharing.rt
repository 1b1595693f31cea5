// Threads may share cascades: this is shown where it is proved that this call is allowed.

use crate::cascades::Cascade;

/// Asks that threads may share a value.
fn shares<T: Sync>(_value: &T) {}

/// Threads may share a cascade.
pub(crate) fn shares_cascade(c: &Cascade) {
    shares(c);
}
