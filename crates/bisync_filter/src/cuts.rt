//! The first line of a text.

ghost use Rattle.std.specs.Prelude.{◌≡◌, ◌==◌, ◌<◌, ◌∷◌, length, IfSome};
ghost use Rattle.std.specs.List.{position_or_len};
ghost use Rattle.bisync_filter.specs.Trimming.{lines};
ghost use Rattle.bisync_filter.specs.Spelling.{size_of, lines_of};

/// The first line of a text.
#[derive(Drop)]
pub struct Cut<'a> {
    /// The line without its newline.
    pub line: &'a [u8],
    /// The number of its bytes, with its newline.
    pub size: usize,
    /// What follows the newline.
    pub more: Option<&'a [u8]>,
}

/// The first line of a text, and what follows it.
pub fn cut_line(text: &[u8]) -> Cut<'_>
    ensures cut { lines text.now ≡ result.line.now ∷ lines_of result.more }
    ensures size { result.size ≡ size_of result.line.now (lines_of result.more) }
    ensures shorter { IfSome result.more (λ more. length more.now < length text.now) }
{
    let end = newline_in(text);
    if end < text.len() {
        Cut {
            line: &text[..end],
            size: end + 1,
            more: Some(&text[end + 1..]),
        }
    } else {
        Cut {
            line: text,
            size: text.len(),
            more: None,
        }
    }
}

/// The place of the first newline, or the length of the text.
fn newline_in(text: &[u8]) -> usize
    ensures { result ≡ position_or_len (λ b. b == 10) text.now }
{
    for (i, b) in text.iter().enumerate() {
        if *b == b'\n' {
            return i;
        }
    }
    text.len()
}
