//! Logs: entries one after the other, in room that is allocated at the start.

ghost use Rattle.std.specs.Prelude.{◌≡◌, ◌+◌, ◌*◌, ◌^◌, ◌<◌, ◌≤◌, ◌↔◌, IsTrue, [], ◌∷◌, ◌++◌, IfOk, length, option_map, slice_get, vec_len, vec_capacity};
ghost use Rattle.dc_spec.specs.Entries.{short, long, bytes_in, entry_bytes};
ghost use Rattle.dc_station.specs.Entries.{entry_of};
ghost use Rattle.dc_station.specs.Logs.{FitsRoom, IsSized, entry_as, entry_times};

use crate::entry::Entry;
use dc_field::{NoMemory, Value};
use std::alloc::Global;
use std::marker::Model;

/// What an entry is: a value, so many times, or a message.
#[derive(Clone, Copy, Debug)]
enum Kind {
    Short { times: u16 },
    Long,
}

/// Where the bytes of an entry are among those of all.
#[derive(Clone, Copy, Debug)]
struct Row {
    kind: Kind,
    begin: u32,
    size: u32,
}

/// Entries in the order in which they were put; contracts see their list, and for how many words
/// there is room: one entry and fifteen bytes for each.
#[derive(Drop)]
pub struct Log {
    bytes: Vec<u8>,
    rows: Vec<Row>,
    room: u16,
}

impl Model for Log {
    ghost use Rattle.std.specs.Prelude.{◌≡◌, ◌*◌, vec_capacity};
    ghost use Rattle.dc_station.specs.Logs.{Kept, entries_of, AreLaid};

    ghost Value = { Kept };

    ghost view = { λ l. record { entries = entries_of l.bytes.items l.rows.items; room = l.room } };

    ghost invariant = { λ l. AreLaid l.bytes.items l.rows.items l.room
        × (vec_capacity l.bytes ≡ 15 * l.room) × (vec_capacity l.rows ≡ l.room) };
}

impl Log {
    /// No entries, and room for those of so many words.
    pub(crate) fn start(alloc: Global, words: u16) -> Result<Log, NoMemory>
        ensures { IfOk result (λ log. log ≡ record { entries = []; room = words }) }
    {
        let bytes = Vec::with_capacity(alloc, 15 * usize::from(words))?;
        let rows = Vec::with_capacity(alloc, usize::from(words))?;
        Ok(Log {
            bytes,
            rows,
            room: words,
        })
    }

    /// How many entries there are.
    pub fn len(&self) -> usize
        ensures { result ≡ length self.now.entries }
    {
        self.rows.len()
    }

    /// How many stations sent entry number `i`, from 0; none exactly where it is a message.
    pub fn times(&self, i: usize) -> Option<u16>
        requires { i < length self.now.entries }
        ensures { option_map entry_times (slice_get self.now.entries i) ≡ Some result }
    {
        match self.rows[i].kind {
            Kind::Short { times } => Some(times),
            Kind::Long => None,
        }
    }

    /// The bytes of entry number `i`, from 0: its fifteen, or its message.
    pub fn bytes(&self, i: usize) -> &[u8]
        requires { i < length self.now.entries }
        ensures { option_map entry_bytes (slice_get self.now.entries i) ≡ Some result.now }
    {
        let row = self.rows[i];
        let begin = row.begin as usize;
        &self.bytes[begin..begin + row.size as usize]
    }

    /// Whether entry number `i`, from 0, is this one.
    pub fn is_entry(&self, i: usize, entry: &Entry) -> bool
        requires { i < length self.now.entries }
        ensures { IsTrue result ↔ (slice_get self.now.entries i ≡ Some (entry_of entry.now)) }
    {
        match entry {
            Entry::Short { value, times } => {
                self.times(i) == Some(*times) && self.bytes(i) == value.bytes.as_slice()
            }
            Entry::Long { bytes } => self.times(i).is_none() && self.bytes(i) == bytes.as_slice(),
        }
    }

    /// Puts a value at the end, where there is room, and else nothing.
    pub(crate) fn put_short(&mut self, value: &Value, times: u16)
        ensures room { self.new.room ≡ self.old.room }
        ensures entries { FitsRoom (self.old.entries ++ short value.now times ∷ []) self.old.room →
            self.new.entries ≡ self.old.entries ++ short value.now times ∷ [] }
        ensures full { ¬ FitsRoom (self.old.entries ++ short value.now times ∷ []) self.old.room →
            self.new ≡ self.old }
    {
        self.put(Kind::Short { times }, &value.bytes);
    }

    /// Puts a message at the end, where there is room, and else nothing.
    pub(crate) fn put_long(&mut self, bytes: &[u8])
        ensures room { self.new.room ≡ self.old.room }
        ensures entries { FitsRoom (self.old.entries ++ long bytes.now ∷ []) self.old.room →
            self.new.entries ≡ self.old.entries ++ long bytes.now ∷ [] }
        ensures full { ¬ FitsRoom (self.old.entries ++ long bytes.now ∷ []) self.old.room →
            self.new ≡ self.old }
    {
        self.put(Kind::Long, bytes);
    }

    /// Puts an entry at the end, where there is room, and else nothing.
    fn put(&mut self, kind: Kind, bytes: &[u8])
        requires { IsSized kind (length bytes.now) }
        ensures room { self.new.room ≡ self.old.room }
        ensures entries { FitsRoom (self.old.entries ++ entry_as kind bytes.now ∷ []) self.old.room →
            self.new.entries ≡ self.old.entries ++ entry_as kind bytes.now ∷ [] }
        ensures full { ¬ FitsRoom (self.old.entries ++ entry_as kind bytes.now ∷ []) self.old.room →
            self.new ≡ self.old }
    {
        if self.has_room(bytes.len()) {
            put_row(&mut self.bytes, &mut self.rows, kind, bytes);
        }
    }

    /// Whether one more entry of so many bytes has room.
    fn has_room(&self, size: usize) -> bool
        ensures { IsTrue result ↔ ((length self.now.entries < self.now.room) × (bytes_in self.now.entries + size ≤ 15 * self.now.room)) }
    {
        let room = usize::from(self.room);
        self.rows.len() < room && size <= 15 * room - self.bytes.len()
    }
}

/// Puts bytes after others, and a row with their place, in the room that is reserved.
fn put_row(bytes: &mut Vec<u8>, rows: &mut Vec<Row>, kind: Kind, more: &[u8])
    requires short { length bytes.old.items + length more.now < 2 ^ 32 }
    requires bytes { vec_len bytes.old + length more.now ≤ vec_capacity bytes.old }
    requires rows { vec_len rows.old < vec_capacity rows.old }
    ensures bytes { bytes.new.items ≡ bytes.old.items ++ more.now }
    ensures rows { rows.new.items ≡ rows.old.items
        ++ record { kind = kind; begin = length bytes.old.items; size = length more.now } ∷ [] }
    ensures bytes_room { vec_capacity bytes.new ≡ vec_capacity bytes.old }
    ensures rows_room { vec_capacity rows.new ≡ vec_capacity rows.old }
{
    let row = Row {
        kind,
        begin: bytes.len() as u32,
        size: more.len() as u32,
    };
    push_bytes(bytes, more);
    rows.push_reserved(row);
}

/// Puts bytes after others, in the room that is reserved.
fn push_bytes(bytes: &mut Vec<u8>, more: &[u8])
    requires { vec_len bytes.old + length more.now ≤ vec_capacity bytes.old }
    ensures bytes { bytes.new.items ≡ bytes.old.items ++ more.now }
    ensures room { vec_capacity bytes.new ≡ vec_capacity bytes.old }
{
    for i in 0..more.len() {
        bytes.push_reserved(more[i]);
    }
}
