//! Tests of texts, and how they are cut.

ghost use Rattle.std.specs.Prelude.{◌≡◌, ◌≤◌, ◌<◌, option_map, IfSome};
ghost use Rattle.std.specs.Char.{is_ascii_digit};
ghost use Rattle.std.specs.List.{list_all};
ghost use Rattle.bisync_tree.specs.Ranges.{is_suffix, is_suffix_byte};
ghost use Rattle.bisync_opts.specs.Texts.{cut_at, is_number, number};

/// What stands before and after the first such character.
pub fn cut_at(text: &str, separator: char) -> Option<(&str, &str)>
    requires { separator < 128 }
    ensures { option_map (λ cut. (cut.0.now, cut.1.now)) result ≡ cut_at separator text.now }
{
    text.split_once(separator)
}

/// A number in one to `most` decimal digits.
#[tactic(auto, using(crate::proofs::TextLemmas::parsed_number, crate::proofs::TextLemmas::number_bound))]
pub fn number(text: &str, most: usize) -> Option<u32>
    requires { most ≤ 6 }
    ensures value { result ≡ number most text.now }
    ensures bound { IfSome result (λ n. n < 1_000_000) }
{
    if !is_number(text, most) {
        return None;
    }
    text.parse::<u32>().ok()
}

fn is_number(text: &str, most: usize) -> bool
    ensures { result ≡ is_number most text.now }
{
    if text.is_empty() || text.len() > most {
        return false;
    }
    has_digits(text)
}

fn has_digits(text: &str) -> bool
    ensures { result ≡ list_all is_ascii_digit text.now }
{
    text.as_bytes().iter().all(|b| b.is_ascii_digit())
}

/// Whether the text has 1 to 64 bytes, and no `/`, no `,` and no NUL.
pub fn is_suffix(text: &str) -> bool
    ensures { result ≡ is_suffix text.now }
{
    if text.is_empty() || text.len() > 64 {
        return false;
    }
    has_suffix_bytes(text)
}

fn has_suffix_bytes(text: &str) -> bool
    ensures { result ≡ list_all is_suffix_byte text.now }
{
    text.as_bytes().iter().all(|b| is_suffix_byte(*b))
}

fn is_suffix_byte(b: u8) -> bool
    ensures { result ≡ is_suffix_byte b }
{
    b != b'/' && b != b',' && b != 0
}
