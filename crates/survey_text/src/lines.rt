// The lines of a text.
ghost use Rattle.std.specs.Prelude.{◌≡◌, ◌≤◌, length};
ghost use Rattle.survey_text.specs.Lines.{is_break, line_ends, past_breaks};
ghost use Rattle.survey_text.specs.Filled.{past_line, filled_line};

// Whether a byte ends a line.
fn is_break(byte: u8) -> bool
    ensures { result ≡ is_break byte }
{
    byte == b'\r' || byte == b'\n'
}

// Behind the line ends at the front of a text.
fn past_breaks(text: &[u8]) -> &[u8]
    ensures { result.now ≡ past_breaks text.now }
{
    let mut rest = text;
    while let [first, others @ ..] = rest
        && is_break(*first)
    {
        rest = others;
    }
    rest
}

// Behind what stands on the first line of a text.
fn past_line(text: &[u8]) -> &[u8]
    ensures { result.now ≡ past_line text.now }
{
    let mut rest = text;
    while let [first, others @ ..] = rest
        && !is_break(*first)
    {
        rest = others;
    }
    rest
}

// How many lines end in a text.
fn line_ends(text: &[u8]) -> usize
    ensures { result ≡ line_ends text.now }
{
    let mut ends = 0;
    let mut rest = text;
    while let [first, others @ ..] = rest {
        let feed_behind = others.first() == Some(&b'\n');
        if *first == b'\n' || (*first == b'\r' && !feed_behind) {
            ends += 1;
        }
        rest = others;
    }
    ends
}

/// Which line, from 1, is the one with this number, from 0, among those that are not blank.
pub(crate) fn filled_line(text: &[u8], number: usize) -> usize
    ensures { result ≡ filled_line text.now number }
{
    let mut rest = past_breaks(text);
    for _ in 0..number {
        rest = past_breaks(past_line(rest));
    }
    let before = text.len() - rest.len();
    line_ends(&text[..before]) + 1
}
