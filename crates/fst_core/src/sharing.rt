// Threads may share transducers: this is shown where it is proved that these calls are allowed.

use crate::by_inputs::ByInput;
use crate::fst::Fst;

/// Asks that threads may share a value.
fn shares<T: Sync>(_value: &T) {}

/// Threads may share a transducer.
pub(crate) fn shares_fst(a: &Fst) {
    shares(a);
}

/// The same where it is in the order of its inputs.
pub(crate) fn shares_by_input(a: &ByInput) {
    shares(a);
}
