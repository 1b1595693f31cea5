// The readings of cascades.

ghost use Rattle.state_tuples.specs.Cascades.{Cascaded, IsSound, ReadsItsParts};

/// The paths over the tuples of a cascade have the readings of its parts, one after another.
///
/// It does nothing: its contract is the law.
pub fn cascades_read_their_parts()
    ensures { (c : Cascaded) → IsSound c → ReadsItsParts c }
{}
