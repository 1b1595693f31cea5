//! What the classifier says of a line.

ghost use Rattle.std.specs.Prelude.{◌≡◌, ◌≤◌, All, IfNone, IfOk, IfSome, OnErr, OnOk, length};
ghost use Rattle.shared_cascade.specs.Callers.{IsReady};
ghost use Rattle.weighted_relations.specs.Relations.{IsLabel};
ghost use Rattle.normaliser.specs.Lines.{HasNoZero};
ghost use Rattle.normaliser.specs.Loads.{classifier_of};
ghost use Rattle.normaliser.specs.Parts.{IsOutput, IsUnsearched};
ghost use Rattle.normaliser.specs.Searches.{LooksThrough, Searched, Stopped};

use crate::faults::LineFault;
use crate::normalisers::Normaliser;
use crate::searching::output_of;
use fst_core::text;
use least_path::Room;
use shared_cascade::Caller;
use std::alloc::{AllocError, Global};

/// How many bytes a line may have.
const LONGEST_LINE: usize = 16_384;

/// Why a line isn't looked up, where it isn't.
pub(crate) fn fault_of(line: &[u8]) -> Option<LineFault>
    ensures fault { IfSome result (IsUnsearched line.now) }
    ensures no_zero { IfNone result (HasNoZero line.now) }
    ensures short { IfNone result (length line.now ≤ 16384) }
{
    if let Some(at) = line.iter().position(|b| *b == 0) {
        return Some(LineFault::NulByte { at: at as u64 });
    }
    if line.len() > LONGEST_LINE {
        return Some(LineFault::LongLine);
    }
    None
}

impl Normaliser {
    /// The output of the least reading of a line, if there is one.
    pub(crate) fn classified(
        &self,
        alloc: Global,
        caller: &mut Caller,
        room: &mut Room,
        line: &[u8],
    ) -> Result<Option<Vec<u8>>, AllocError>
        requires ready { IsReady self.now.shared caller.old }
        requires no_zero { HasNoZero line.now }
        ensures output { IfOk result (IsOutput (classifier_of self.now) (λ x. x ≡ line.now)) }
        ensures looks { IfOk result (λ output. IfSome output (λ _. LooksThrough self.now.shared caller.old caller.new line.now)) }
        ensures ready { IsReady self.now.shared caller.new }
        ensures searched { OnOk result (Searched self.now.shared caller.old caller.new) }
        ensures stopped { OnErr result (Stopped self.now.shared caller.old caller.new) }
    {
        let source = text(alloc, &labels(alloc, line)?)?;
        output_of(alloc, &self.shared, caller, &self.classifier, &source, room)
    }
}

/// The bytes of a line as labels.
fn labels(alloc: Global, line: &[u8]) -> Result<Vec<u16>, AllocError>
    requires { HasNoZero line.now }
    ensures labels { IfOk result (λ v. v.items ≡ line.now) }
    ensures fit { IfOk result (λ v. All IsLabel v.items) }
{
    let mut labels = Vec::with_capacity(alloc, line.len())?;
    for b in line {
        labels.push(*b as u16)?;
    }
    Ok(labels)
}
