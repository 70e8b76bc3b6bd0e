//! Bytes that wait until there are enough of them to be given to a sink.

ghost use Rattle.std.specs.Prelude.{◌≡◌, ◌+◌, ◌≤◌, [], ◌++◌, length, OnOk, IsTrue, ◌↔◌};
ghost use Rattle.bisync_text.specs.Quote.{quoted, quoted_byte};
ghost use Rattle.std.specs.List.{flat_map};
ghost use Rattle.bisync_report.specs.Parts.{part_text, parts_text};
ghost use Rattle.bisync_report.specs.Waiting.{Puts};

use crate::names::{delta_name, field_names, option_name, side_name, work_name};
use crate::parts::Part;
use bisync_device::{Failed, Sink};
use bisync_filter::digest_text;
use bisync_text::{QuotedByte, time_text};
use itoa::Buffer;
use std::marker::Model;

/// The most bytes that wait.
const ROOM: usize = 8192;

/// Bytes that wait, on the stack. Each call that fails has given a beginning of them.
#[derive(Drop)]
pub struct Waiting {
    bytes: [u8; 8192],
    len: usize,
}

impl Model for Waiting {
    ghost use Rattle.std.specs.Prelude.{◌≤◌, List, ℕ, take};

    ghost Value = { List ℕ };

    ghost view = { λ waiting. take waiting.len waiting.bytes };

    ghost invariant = { λ waiting. waiting.len ≤ 8192 };
}

impl Waiting {
    pub fn new() -> Waiting
        ensures { result ≡ [] }
    {
        Waiting {
            bytes: [0; 8192],
            len: 0,
        }
    }

    /// Gives all that waits to the sink. Where nothing waits, the sink isn't called.
    pub fn flush<S: Sink>(&mut self, sink: &mut S) -> Result<(), Failed>
        ensures puts { Puts S.tells []
            self.old (S.state sink.old) self.new (S.state sink.new) result }
        ensures empty { OnOk result (self.new ≡ []) }
    {
        if self.is_empty() {
            return Ok(());
        }
        sink.write_all(self.as_bytes())?;
        self.clear();
        Ok(())
    }

    /// Puts bytes behind those that wait.
    pub fn put<S: Sink>(&mut self, bytes: &[u8], sink: &mut S) -> Result<(), Failed>
        ensures { Puts S.tells bytes.now
            self.old (S.state sink.old) self.new (S.state sink.new) result }
    {
        if bytes.len() <= self.room() {
            self.hold(bytes);
            return Ok(());
        }
        self.flush(sink)?;
        if bytes.len() <= ROOM {
            self.hold(bytes);
            return Ok(());
        }
        sink.write_all(bytes)
    }

    /// Puts the quoted text of bytes behind those that wait.
    pub fn put_quoted<S: Sink>(&mut self, bytes: &[u8], sink: &mut S) -> Result<(), Failed>
        ensures { Puts S.tells (quoted bytes.now)
            self.old (S.state sink.old) self.new (S.state sink.new) result }
    {
        self.put(b"\"", sink)?;
        self.put_escaped(bytes, sink)?;
        self.put(b"\"", sink)
    }

    fn put_escaped<S: Sink>(&mut self, bytes: &[u8], sink: &mut S) -> Result<(), Failed>
        ensures { Puts S.tells (flat_map quoted_byte bytes.now)
            self.old (S.state sink.old) self.new (S.state sink.new) result }
    {
        for byte in bytes {
            self.put(QuotedByte::new(*byte).as_bytes(), sink)?;
        }
        Ok(())
    }

    fn put_part<S: Sink>(&mut self, part: Part<'_>, sink: &mut S) -> Result<(), Failed>
        ensures { Puts S.tells (part_text part.entry)
            self.old (S.state sink.old) self.new (S.state sink.new) result }
    {
        match part {
            Part::Words(bytes) => self.put(bytes, sink),
            Part::Quoted(bytes) => self.put_quoted(bytes, sink),
            Part::Number(n) => self.put(Buffer::new().format(n).as_bytes(), sink),
            Part::Time(moment) => self.put(&time_text(moment), sink),
            Part::Digest(digest) => self.put(&digest_text(digest), sink),
            Part::Of(side) => self.put(side_name(side), sink),
            Part::Change(delta) => self.put(delta_name(delta), sink),
            Part::Named(option) => self.put(option_name(option), sink),
            Part::Work(name) => self.put(work_name(name), sink),
            Part::Fields(fields) => self.put(field_names(fields), sink),
        }
    }

    /// Puts the parts of a line behind what waits.
    pub fn put_parts<S: Sink>(&mut self, parts: &[Part<'_>], sink: &mut S) -> Result<(), Failed>
        ensures { Puts S.tells (parts_text parts.now)
            self.old (S.state sink.old) self.new (S.state sink.new) result }
    {
        for part in parts {
            self.put_part(*part, sink)?;
        }
        Ok(())
    }

    fn is_empty(&self) -> bool
        ensures { IsTrue result ↔ (self.now ≡ []) }
    {
        self.len == 0
    }

    fn as_bytes(&self) -> &[u8]
        ensures { result.now ≡ self.now }
    {
        &self.bytes[..self.len]
    }

    fn clear(&mut self)
        ensures { self.new ≡ [] }
    {
        self.len = 0;
    }

    /// How many more bytes may wait.
    fn room(&self) -> usize
        ensures { result + length self.now ≡ 8192 }
    {
        ROOM - self.len
    }

    fn hold(&mut self, bytes: &[u8])
        requires { length self.old + length bytes.now ≤ 8192 }
        ensures { self.new ≡ self.old ++ bytes.now }
    {
        let end = self.len + bytes.len();
        self.bytes[self.len..end].copy_from_slice(bytes);
        self.len = end;
    }
}
