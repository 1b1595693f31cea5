//! Threads may share a normaliser, and one may hand another what it says: this is shown where it is proved that these calls are allowed.

use crate::faults::{LineFault, LoadFault};
use crate::normalisers::{Normaliser, Spoken};

/// Asks that threads may share a value.
fn shares<T: Sync>(_value: &T) {}

/// Asks that a value may be handed to another thread.
fn hands<T: Send + Drop>(_value: T) {}

/// Threads may share a normaliser.
pub(crate) fn shares_normaliser(normaliser: &Normaliser) {
    shares(normaliser);
}

/// One may hand it to another.
pub(crate) fn hands_normaliser(normaliser: Normaliser) {
    hands(normaliser);
}

/// So may it what a line says.
pub(crate) fn hands_answer(answer: Result<Spoken, LineFault>) {
    hands(answer);
}

/// So may it why nothing is loaded.
pub(crate) fn hands_load_fault(fault: LoadFault) {
    hands(fault);
}
