//! A gap buffer of text: two halves, with room between them.
ghost use Rattle.std.specs.Prelude.{◌≡◌, ◌+◌, ◌-◌, ◌≤◌, ◌<◌, ◌^◌, ◌++◌, [], drop, length, take, OnOk, OnErr, string_bytes};
ghost use Rattle.std.specs.Str.{IsCharBoundary};
ghost use Rattle.yq_text.specs.TextGapBuffer.{TextGapView, buffer_text};
ghost use lib.Seq.{paste};

use crate::halves::Halves;
use std::alloc::AllocError;
use std::cmp::max;
use std::marker::Model;

/// A gap buffer of text, two halves with room between them: what is written there moves no other byte,
/// and to move the split costs the bytes between its old place and its new one.
#[derive(Drop)]
pub struct TextGapBuffer {
    bytes: Vec<u8>,
    /// How many bytes are in front of the split.
    front: usize,
    /// Where the bytes after it begin.
    back: usize,
}

impl Model for TextGapBuffer {
    ghost use Rattle.std.specs.Prelude.{◌-◌, take, drop};
    ghost use Rattle.yq_text.specs.TextGapBuffer.{IsKept, TextGapView};

    ghost Value = { TextGapView };

    ghost view = { λ t. record {
      front = take t.front t.bytes.items;
      back = drop t.back t.bytes.items;
      room = t.back - t.front;
    } };

    ghost invariant = { λ t. IsKept t.bytes.items t.front t.back };
}

/// Writes a text over the bytes from a place on.
fn write(bytes: &mut Vec<u8>, at: usize, text: &str)
    requires { at + length text.now ≤ length bytes.old.items }
    ensures { bytes.new.items ≡ paste bytes.old.items at text.now (length text.now) }
{
    bytes.as_mut_slice()[at..at + text.len()].copy_from_slice(text.as_bytes());
}

impl TextGapBuffer {
    /// A text with the split at its end, and no room there. No memory is asked for.
    pub fn of(text: String) -> TextGapBuffer
        ensures front { result.front ≡ string_bytes text }
        ensures back { result.back ≡ [] }
    {
        let bytes = text.into_bytes();
        let len = bytes.len();
        TextGapBuffer {
            bytes,
            front: len,
            back: len,
        }
    }

    /// Both halves.
    pub fn halves(&self) -> Halves<'_>
        ensures front { result.front.now ≡ self.now.front }
        ensures back { result.back.now ≡ self.now.back }
    {
        let bytes = self.bytes.as_slice();
        Halves {
            front: unsafe { std::str::from_utf8_unchecked(&bytes[..self.front]) },
            back: unsafe { std::str::from_utf8_unchecked(&bytes[self.back..]) },
        }
    }

    /// How long the text is, in bytes.
    pub fn len(&self) -> usize
        ensures { result ≡ length (buffer_text self.now) }
    {
        self.front + (self.bytes.len() - self.back)
    }

    /// Makes room for so many bytes at the split.
    ///
    /// # Errors
    /// Lack of memory. The text is as it was.
    pub fn reserve(&mut self, more: usize) -> Result<(), AllocError>
        ensures front { self.new.front ≡ self.old.front }
        ensures back { self.new.back ≡ self.old.back }
        ensures room { OnOk result (more ≤ self.new.room) }
        ensures err { OnErr result (self.new ≡ self.old) }
    {
        let room = self.back - self.front;
        if more <= room {
            return Ok(());
        }
        let len = self.bytes.len();
        let growth = max(more - room, len);
        self.bytes.reserve(growth)?;
        let end = len + growth;
        self.bytes.resize(end, 0)?;
        self.bytes
            .copy_within(self.back..len, end - (len - self.back));
        self.back += end - len;
        Ok(())
    }

    /// Moves the split to a place in the text, in bytes.
    pub fn move_split(&mut self, at: usize)
        requires { IsCharBoundary (buffer_text self.old) at }
        ensures front { self.new.front ≡ take at (buffer_text self.old) }
        ensures back { self.new.back ≡ drop at (buffer_text self.old) }
        ensures room { self.new.room ≡ self.old.room }
    {
        if at < self.front {
            let count = self.front - at;
            self.bytes.copy_within(at..self.front, self.back - count);
            self.front = at;
            self.back -= count;
        } else {
            let count = at - self.front;
            self.bytes
                .copy_within(self.back..self.back + count, self.front);
            self.front = at;
            self.back += count;
        }
    }

    /// So many bytes after the split are replaced by a text, which ends up in front of it; there is
    /// room for it.
    pub fn exchange(&mut self, gone: usize, text: &str)
        requires gone { IsCharBoundary self.old.back gone }
        requires room { length text.now ≤ self.old.room + gone }
        ensures front { self.new.front ≡ self.old.front ++ text.now }
        ensures back { self.new.back ≡ drop gone self.old.back }
        ensures room { self.new.room + length text.now ≡ self.old.room + gone }
    {
        write(&mut self.bytes, self.front, text);
        self.front += text.len();
        self.back += gone;
    }

    /// The text, where it is kept no longer. No memory is asked for.
    pub fn into_string(self) -> String
        ensures { string_bytes result ≡ buffer_text self }
    {
        let mut kept = self;
        let len = kept.len();
        kept.move_split(len);
        let TextGapBuffer {
            mut bytes,
            front,
            ..
        } = kept;
        bytes.truncate(front);
        unsafe { String::from_utf8_unchecked(bytes) }
    }
}
