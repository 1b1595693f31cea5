//! Fields of a line of a string file.

ghost use Rattle.std.specs.Prelude.{◌≡◌, ◌∷◌, [], IfSome, IfNone};
ghost use Rattle.string_files.specs.Fields.{fields, are_bytes, weight_field};

use text_forms::decimal;

/// The first field of a line, and what follows the tab after it, where there is one.
pub(crate) fn first_field(line: &[u8]) -> (&[u8], Option<&[u8]>)
    ensures last { IfNone result.1 (fields line.now ≡ result.0.now ∷ []) }
    ensures more { IfSome result.1 (λ rest. fields line.now ≡ result.0.now ∷ fields rest.now) }
{
    let mut at = 0;
    while at < line.len() {
        if line[at] == b'\t' {
            return (&line[..at], Some(&line[at + 1..]));
        }
        at += 1;
    }
    (line, None)
}

/// Whether no byte is 0.
pub(crate) fn are_bytes(bytes: &[u8]) -> bool
    ensures { result ≡ are_bytes bytes.now }
{
    let mut rest = bytes;
    while let [b, after @ ..] = rest {
        if *b == 0 {
            return false;
        }
        rest = after;
    }
    true
}

/// The weight that a field says, in ten-thousandths, where it is a decimal below 2^32.
pub(crate) fn weight(field: &[u8]) -> Option<u32>
    ensures { result ≡ weight_field field.now }
{
    decimal(field)
}
