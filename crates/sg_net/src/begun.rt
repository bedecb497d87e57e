// The frame of which a part was written.
ghost use Rattle.std.specs.Prelude.{◌≡◌};

use sg_device::{Frames, NoMemory};
use std::alloc::Global;

/// The frame of which a part was written over a connection, or none.
#[derive(Drop)]
pub(crate) struct BegunFrame {
    frame: Vec<u8>,
    // The bytes of it that were written. 0 where no frame is begun.
    written: usize,
}

impl BegunFrame {
    /// No frame.
    pub(crate) fn new(alloc: Global) -> BegunFrame
        ensures { result.written ≡ 0 }
    {
        BegunFrame {
            frame: Vec::new(alloc),
            written: 0,
        }
    }

    /// How many of the frame's bytes were written, or 0 where there is none.
    pub(crate) fn written(&self) -> usize
        ensures { result ≡ self.now.written }
    {
        self.written
    }

    /// There is none any more.
    pub(crate) fn forget(&mut self)
        ensures { self.new.written ≡ 0 }
    {
        self.frame.clear();
        self.written = 0;
    }

    /// Whether the first of the frames is the one of which a part was written, or there is none.
    pub(crate) fn is_first_of(&self, frames: &Frames) -> bool {
        if self.written == 0 {
            return true;
        }
        let Some(size) = frames.sizes().first() else {
            return false;
        };
        match frames.bytes().get(..*size) {
            Some(first) => first == self.frame.as_slice(),
            None => false,
        }
    }

    /// Of these frames `count` bytes were written: the first `whole`, and perhaps a part of the next one.
    pub(crate) fn keep(
        &mut self,
        frames: &Frames,
        whole: usize,
        count: usize,
    ) -> Result<(), NoMemory> {
        let done = bytes_of(frames.sizes(), whole);
        let part = count.saturating_sub(done);
        if whole == 0 && self.written > 0 {
            self.written = part;
            return Ok(());
        }
        self.forget();
        if part == 0 {
            return Ok(());
        }
        let size = frames.sizes().get(whole).copied().unwrap_or(0);
        if let Some(frame) = frames.bytes().get(done..done.saturating_add(size)) {
            self.frame.extend_from_slice(frame)?;
            self.written = part;
        }
        Ok(())
    }
}

// The bytes of the first so many frames.
fn bytes_of(sizes: &[usize], whole: usize) -> usize {
    let mut bytes = 0usize;
    for size in sizes.iter().take(whole) {
        bytes = bytes.saturating_add(*size);
    }
    bytes
}
