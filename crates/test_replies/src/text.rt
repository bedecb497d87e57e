// Texts that grow while there is memory.
use std::alloc::{AllocError, Global};

/// A text. Where memory runs out it lacks what came then, which shows at its end.
#[derive(Drop)]
pub struct ReplyText {
    alloc: Global,
    bytes: Vec<u8>,
    lacks: bool,
}

impl ReplyText {
    pub fn new(alloc: Global) -> ReplyText {
        ReplyText {
            alloc,
            bytes: Vec::new(alloc),
            lacks: false,
        }
    }

    pub fn push(&mut self, byte: u8) {
        if self.bytes.push(byte).is_err() {
            self.lacks = true;
        }
    }

    pub fn put(&mut self, part: &[u8]) {
        if self.bytes.extend_from_slice(part).is_err() {
            self.lacks = true;
        }
    }

    /// A word, behind a blank where it isn't the first one.
    pub fn put_word(&mut self, word: &[u8]) {
        if !self.bytes.is_empty() {
            self.push(b' ');
        }
        self.put(word);
    }

    /// A number in decimal digits.
    pub fn put_number(&mut self, number: u64) {
        match format!(in self.alloc; "{number}") {
            Ok(digits) => self.put(digits.as_bytes()),
            Err(_) => self.lacks = true,
        }
    }

    /// A word, and a number behind it.
    pub fn put_count(&mut self, word: &[u8], number: u64) {
        self.put(word);
        self.put_number(number);
    }

    /// Memory has run out for what was to be put next.
    pub fn miss(&mut self) {
        self.lacks = true;
    }

    /// The text, if it is whole.
    pub fn done(self) -> Result<Vec<u8>, AllocError> {
        if self.lacks {
            return Err(AllocError);
        }
        Ok(self.bytes)
    }
}
