//! What lines are cut by.

use std::test::Fail;
use text_lines::first_line;

/// A text, its first line, what follows it.
const CASES: [(&[u8], &[u8], &[u8]); 8] = [
    (b"a\nb", b"a", b"b"),
    (b"a", b"a", b""),
    (b"\n\na", b"", b"\na"),
    (b"a\r\n", b"a", b""),
    (b"a\r\r\nb", b"a\r", b"b"),
    (b"\r\n", b"", b""),
    (b"a\r", b"a\r", b""),
    (b"a\rb\n", b"a\rb", b""),
];

#[test]
fn the_first_line_is_cut_off(rt: HostRuntime) -> Result<(), Fail> {
    for (text, line, rest) in CASES {
        let (first, after) = first_line(text);
        assert_eq!(rt; first, line);
        assert_eq!(rt; after, rest);
    }
    Ok(())
}
