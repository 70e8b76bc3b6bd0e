ghost use Rattle.std.specs.Prelude.{◌≡◌, ◌≤◌, length, sum_by};
ghost use Rattle.std.specs.Char.{len_utf8};
ghost use Rattle.bisync_glob.specs.declared.tokens.Token.{Token};
ghost use Rattle.bisync_glob.specs.Faults.{place_of};

use crate::tokens::Token;

/// How many bytes stand before the token `k` of a text.
pub fn place_of(tokens: &[Token], text: &[char], k: usize) -> u64
    requires index { k ≤ length tokens.now }
    requires few { length text.now ≤ 1024 }
    requires within { sum_by (λ (token : Token). token.len) tokens.now ≤ length text.now }
    ensures place { result ≡ place_of tokens.now text.now k }
    ensures bound { result ≤ 4096 }
{
    let mut at = 0;
    for token in &tokens[..k] {
        at += token.len;
    }
    bytes_of(&text[..at])
}

/// How many bytes the characters have.
fn bytes_of(text: &[char]) -> u64
    requires { length text.now ≤ 1024 }
    ensures bytes { result ≡ sum_by len_utf8 text.now }
    ensures bound { result ≤ 4096 }
{
    let mut bytes = 0;
    for c in text {
        bytes += c.len_utf8() as u64;
    }
    bytes
}
