//! Places in a text.

ghost use Rattle.std.specs.Prelude.{◌≡◌, ◌≤◌, length, take};
ghost use Rattle.oz_lexer.specs.Place.{place_of};

/// The line and the column of a place in a text, both from 1; columns count bytes.
pub fn line_and_column(text: &str, at: usize) -> (u64, u64)
    requires { at ≤ length text.now }
    ensures { result ≡ place_of (take at text.now) }
{
    let mut line: u64 = 1;
    let mut column: u64 = 1;
    let before = text.as_bytes().split_at(at).0;
    for byte in before {
        if *byte == b'\n' {
            line += 1;
            column = 1;
        } else {
            column += 1;
        }
    }
    (line, column)
}
