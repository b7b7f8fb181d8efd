//! The lines of a text of steps or of calls.

ghost use Rattle.std.specs.Prelude.{◌≡◌};
ghost use Rattle.wendrupi.specs.Lines.{says_nothing};

/// A line without the carriage return that ends it.
pub fn without_return(line: &[u8]) -> &[u8] {
    line.strip_suffix(b"\r").unwrap_or(line)
}

/// Whether a line is blank or a remark.
pub fn says_nothing(line: &[u8]) -> bool
    ensures { result ≡ says_nothing line.now }
{
    match line {
        [] => true,
        [first, ..] => *first == b'#',
    }
}
