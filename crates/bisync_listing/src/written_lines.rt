//! The lines of a text as they are written. None takes memory.

ghost use Rattle.std.specs.Prelude.{◌≡◌, ℕ, ◌+◌, ◌*◌, ◌<◌, ◌≤◌, [], ◌∷◌, ◌++◌, length, Option, Some, decimal};
ghost use Rattle.bisync_text.specs.Path.{IsPath};
ghost use Rattle.bisync_text.specs.Quote.{hex_digit, quoted, quoted_byte};
ghost use Rattle.bisync_listing.specs.Words.{ended};
ghost use Rattle.bisync_listing.specs.Spelling.{header_line, file_line, end_line, digest_text, hex_digits};

use crate::Header;
use crate::line_buffers::LineBuffer;
use crate::marked_lines::field_names;
use bisync_text::{Path, QuotedByte, time_text};
use bisync_tree::{Compare, Entry};

/// Writes the first line of version 2, with its newline.
pub(crate) fn put_header(line: &mut LineBuffer, stamp: u64, fields: &Compare)
    requires { line.old ≡ [] }
    ensures { line.new ≡ ended (header_line (record { stamp = stamp; fields = Some fields.now })) }
{
    line.push_all(b"# bisync listing v2 stamp ");
    line.push_decimal(stamp);
    line.push_all(b" fields ");
    line.push_all(field_names(fields.size, fields.time, fields.hash));
    line.push(b'\n');
}

/// Writes the end line, with its newline.
pub(crate) fn put_end(line: &mut LineBuffer, count: u64)
    requires { line.old ≡ [] }
    ensures { line.new ≡ ended (end_line count) }
{
    line.push_all(b"# end ");
    line.push_decimal(count);
    line.push_all(b" files\n");
}

fn hex_digit(digit: u8) -> u8
    requires { digit < 16 }
    ensures { result ≡ hex_digit digit }
{
    if digit < 10 {
        b'0' + digit
    } else {
        b'a' - 10 + digit
    }
}

fn put_hex(line: &mut LineBuffer, bytes: &[u8; 16])
    requires { length line.old ≤ 16000 }
    ensures bytes { line.new ≡ line.old ++ hex_digits bytes.now }
    ensures len { length line.new ≡ length line.old + 32 }
{
    for byte in bytes {
        line.push(hex_digit(*byte / 16));
        line.push(hex_digit(*byte % 16));
    }
}

fn put_digest(line: &mut LineBuffer, hash: &Option<[u8; 16]>)
    requires { length line.old ≤ 10000 }
    ensures bytes { line.new ≡ line.old ++ digest_text hash.now }
    ensures len { length line.new ≤ length line.old + 36 }
{
    match hash {
        None => line.push(b'-'),
        Some(bytes) => {
            line.push_all(b"md5:");
            put_hex(line, bytes);
        }
    }
}

// A byte that stands for itself, as most do, is written by a call that copies no slice.
fn put_quoted_byte(line: &mut LineBuffer, byte: u8)
    requires { length line.old + 4 ≤ 16484 }
    ensures bytes { line.new ≡ line.old ++ quoted_byte byte }
    ensures len { length line.new ≤ length line.old + 4 }
{
    let quoted = QuotedByte::new(byte);
    match quoted.as_bytes() {
        [plain] => line.push(*plain),
        escape => line.push_all(escape),
    }
}

#[tactic(auto, unfolding(bisync_text::specs::Quote::quoted))]
fn put_quoted(line: &mut LineBuffer, bytes: &[u8])
    requires { length line.old + 4 * length bytes.now + 2 ≤ 16484 }
    ensures bytes { line.new ≡ line.old ++ quoted bytes.now }
    ensures len { length line.new ≤ length line.old + 4 * length bytes.now + 2 }
{
    line.push(b'"');
    for byte in bytes {
        put_quoted_byte(line, *byte);
    }
    line.push(b'"');
}

/// Writes the line of a file, with its newline.
pub(crate) fn put_file(line: &mut LineBuffer, path: &Path, entry: &Entry)
    requires { line.old ≡ [] }
    ensures { line.new ≡ ended (file_line (path.now, entry.now)) }
{
    let time = entry.time;
    line.push_all(b"- ");
    line.push_decimal(entry.size);
    line.push(b' ');
    put_digest(line, &entry.hash);
    line.push_all(b" - ");
    line.push_all(&time_text(time));
    line.push(b' ');
    put_quoted(line, path.as_bytes());
    line.push(b'\n');
}
