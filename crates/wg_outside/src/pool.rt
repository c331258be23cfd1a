// Files in one pool of bytes.
ghost use Rattle.std.specs.Prelude.{◌≡◌, ◌≤◌, ◌<◌, ◌+◌, ◌++◌, ◌∷◌, [], IfOk, IfSome};
ghost use Rattle.std.specs.Prelude.{vec_capacity, vec_len, length, option_map, OnOk, OnErr};
ghost use Rattle.wg_outside.specs.Files.{file_in};
ghost use Rattle.wg_outside.specs.Spans.{span_end, file_at, files_at, IsInPool};

use std::alloc::Global;
use wg_num::Memory;

// A file in the pool: its name begins at `start`, and its bytes stand behind its name.
#[derive(Clone, Copy)]
pub(crate) struct Span {
    pub(crate) start: usize,
    pub(crate) name: usize,
    pub(crate) size: usize,
}

// Of two files with one name the later one counts. `saves` and `room` are what is reserved for
// files to come: so many, of so many bytes with their names.
#[derive(Drop)]
pub(crate) struct Pool {
    pub(crate) bytes: Vec<u8>,
    pub(crate) spans: Vec<Span>,
    pub(crate) saves: u64,
    pub(crate) room: u64,
    ghost in_pool: { IsInPool bytes.items spans.items },
    ghost bytes_reserved: { vec_len bytes + room ≤ vec_capacity bytes },
    ghost spans_reserved: { vec_len spans + saves ≤ vec_capacity spans },
}

impl Pool {
    pub(crate) fn new(alloc: Global, saves: u32, room: u64) -> Result<Pool, Memory>
        ensures empty { IfOk result (λ s. files_at s.bytes.items s.spans.items ≡ []) }
        ensures reserved { IfOk result (λ s. (s.saves ≡ saves) × (s.room ≡ room)) }
    {
        let Ok(bytes) = Vec::with_capacity(alloc, room as usize) else {
            return Err(Memory);
        };
        let Ok(spans) = Vec::with_capacity(alloc, saves as usize) else {
            return Err(Memory);
        };
        Ok(Pool {
            bytes,
            spans,
            saves: u64::from(saves),
            room,
        })
    }

    fn name_of(&self, span: &Span) -> &[u8]
        requires { span_end span.now ≤ length self.now.bytes.items }
        ensures { result.now ≡ (file_at self.now.bytes.items span.now).0 }
    {
        let rest = &self.bytes[span.start..];
        &rest[..span.name]
    }

    fn bytes_of(&self, span: &Span) -> &[u8]
        requires { span_end span.now ≤ length self.now.bytes.items }
        ensures { result.now ≡ (file_at self.now.bytes.items span.now).1 }
    {
        let rest = &self.bytes[span.start + span.name..];
        &rest[..span.size]
    }

    // The last file of that name.
    fn find(&self, name: &str) -> Option<Span>
        ensures found { option_map (λ s. (file_at self.now.bytes.items s).1) result ≡
            file_in (files_at self.now.bytes.items self.now.spans.items) name.now }
        ensures within { IfSome result (λ s. span_end s ≤ length self.now.bytes.items) }
    {
        let mut found: Option<Span> = None;
        for span in &self.spans {
            if self.name_of(span) == name.as_bytes() {
                found = Some(*span);
            }
        }
        found
    }

    pub(crate) fn file(&self, name: &str) -> Option<&[u8]>
        ensures { option_map (λ b. b.now) result ≡ file_in (files_at self.now.bytes.items self.now.spans.items)
            name.now }
    {
        match self.find(name) {
            Some(span) => Some(self.bytes_of(&span)),
            None => None,
        }
    }

    // Puts a file into the pool, where there is room for it beside what is reserved.
    fn keep(&mut self, name: &str, bytes: &[u8])
        requires bytes_room { vec_len self.old.bytes + length name.now + length bytes.now + self.old.room ≤
            vec_capacity self.old.bytes }
        requires span_room { vec_len self.old.spans + 1 + self.old.saves ≤ vec_capacity self.old.spans }
        ensures files { files_at self.new.bytes.items self.new.spans.items ≡
            files_at self.old.bytes.items self.old.spans.items ++ (name.now, bytes.now) ∷ [] }
        ensures reserved { (self.new.saves ≡ self.old.saves) × (self.new.room ≡ self.old.room) }
    {
        let span = Span {
            start: self.bytes.len(),
            name: name.len(),
            size: bytes.len(),
        };
        self.bytes.extend_from_slice(name.as_bytes()).unwrap();
        self.bytes.extend_from_slice(bytes).unwrap();
        self.spans.push(span).unwrap();
    }

    // Puts a file into the pool, within what is reserved.
    pub(crate) fn save(&mut self, name: &str, bytes: &[u8])
        requires saves { 0 < self.old.saves }
        requires room { length name.now + length bytes.now ≤ self.old.room }
        ensures files { files_at self.new.bytes.items self.new.spans.items ≡
            files_at self.old.bytes.items self.old.spans.items ++ (name.now, bytes.now) ∷ [] }
        ensures saves { self.new.saves + 1 ≡ self.old.saves }
        ensures room { self.new.room + length name.now + length bytes.now ≡ self.old.room }
    {
        self.saves -= 1;
        self.room = self.room - name.len() as u64 - bytes.len() as u64;
        self.keep(name, bytes);
    }

    // Puts a file into the pool, beside what is reserved. A sum that has no room in 64 bits is more than any list
    // holds, so that `reserve` refuses it.
    pub(crate) fn add(&mut self, name: &str, bytes: &[u8]) -> Result<(), Memory>
        ensures files { OnOk result (files_at self.new.bytes.items self.new.spans.items ≡
            files_at self.old.bytes.items self.old.spans.items ++ (name.now, bytes.now) ∷ []) }
        ensures err { OnErr result (files_at self.new.bytes.items self.new.spans.items ≡
            files_at self.old.bytes.items self.old.spans.items) }
        ensures reserved { (self.new.saves ≡ self.old.saves) × (self.new.room ≡ self.old.room) }
    {
        let more = (self.room as usize)
            .saturating_add(name.len())
            .saturating_add(bytes.len());
        let entries = (self.saves as usize).saturating_add(1);
        if self.bytes.reserve(more).is_err() || self.spans.reserve(entries).is_err() {
            return Err(Memory);
        }
        self.keep(name, bytes);
        Ok(())
    }
}
