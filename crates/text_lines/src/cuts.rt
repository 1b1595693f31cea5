ghost use Rattle.std.specs.Prelude.{◌≡◌, ◌<◌, ◌∷◌, length};
ghost use Rattle.text_lines.specs.Lines.{lines, without_return};

use bstr::ByteSlice;

/// The first line of a text, and what follows it.
pub fn first_line(text: &[u8]) -> (&[u8], &[u8])
    requires { 0 < length text.now }
    ensures first { lines text.now ≡ result.0.now ∷ lines result.1.now }
    ensures less { length result.1.now < length text.now }
{
    match text.find_byte(b'\n') {
        Some(at) => (cut_return(&text[..at]), &text[at + 1..]),
        None => (text, &[]),
    }
}

/// A line without the one carriage return at its end.
fn cut_return(line: &[u8]) -> &[u8]
    ensures { result.now ≡ without_return line.now }
{
    match line {
        [] => line,
        [front @ .., last] => if *last == b'\r' { front } else { line },
    }
}
