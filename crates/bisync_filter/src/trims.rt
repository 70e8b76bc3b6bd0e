//! What is left of a line.

ghost use Rattle.std.specs.Prelude.{◌≡◌, ◌-◌, length, drop, take};
ghost use Rattle.std.specs.List.{prefix_len, suffix_len};
ghost use Rattle.bisync_filter.specs.Trimming.{is_blank, without_return, stripped};

/// A line without one final carriage return, and then without spaces and tabs at both ends.
pub fn stripped(line: &[u8]) -> &[u8]
    ensures { result.now ≡ stripped line.now }
{
    without_blanks_behind(without_blanks_before(without_return(line)))
}

fn without_return(line: &[u8]) -> &[u8]
    ensures { result.now ≡ without_return line.now }
{
    let len = line.len();
    if len > 0 && line[len - 1] == b'\r' {
        &line[..len - 1]
    } else {
        line
    }
}

fn is_blank(b: u8) -> bool
    ensures { result ≡ is_blank b }
{
    b == b' ' || b == b'\t'
}

fn without_blanks_before(text: &[u8]) -> &[u8]
    ensures { result.now ≡ drop (prefix_len is_blank text.now) text.now }
{
    let mut start = 0;
    while start < text.len() && is_blank(text[start]) {
        start += 1;
    }
    &text[start..]
}

fn without_blanks_behind(text: &[u8]) -> &[u8]
    ensures { result.now ≡ take (length text.now - suffix_len is_blank text.now) text.now }
{
    let mut end = text.len();
    while end > 0 && is_blank(text[end - 1]) {
        end -= 1;
    }
    &text[..end]
}
