// The texts of one send, put together by their files.
use sg_device::{Frames, NoMemory};
use std::alloc::Global;

// A number that no text has.
const NONE: usize = usize::MAX;

/// The texts of one send, put together by the files that they are for. Files have numbers in the order
/// in which they were opened, texts in the order in which they were given. The buffers are used again.
#[derive(Drop)]
pub(crate) struct Grouped {
    // Of each file the number of its first text.
    first: Vec<usize>,
    // Of each file how many texts it has appended.
    appended: Vec<usize>,
    // Of each text the number of the next one for its file.
    next: Vec<usize>,
    // Of each text the place of its first byte among the bytes of all.
    starts: Vec<usize>,
    /// The texts of one file.
    pub(crate) texts: Frames,
}

// So many times the same number.
fn fill(numbers: &mut Vec<usize>, count: usize, number: usize) -> Result<(), NoMemory> {
    numbers.clear();
    numbers.resize(count, number)?;
    Ok(())
}

// The number at this place, where there is one.
fn number_at(numbers: &[usize], place: usize) -> usize {
    match numbers.get(place) {
        Some(number) => *number,
        None => NONE,
    }
}

// The bytes of a text that begins there.
fn text_at(texts: &Frames, start: usize, size: usize) -> &[u8] {
    match texts.bytes().get(start..start.saturating_add(size)) {
        Some(text) => text,
        None => &[],
    }
}

impl Grouped {
    pub(crate) fn new(alloc: Global) -> Grouped {
        Grouped {
            first: Vec::new(alloc),
            appended: Vec::new(alloc),
            next: Vec::new(alloc),
            starts: Vec::new(alloc),
            texts: Frames::new(alloc),
        }
    }

    /// Begins with texts for files of which there are so many: each has its file's number.
    pub(crate) fn begin(
        &mut self,
        places: &[usize],
        texts: &Frames,
        files: usize,
    ) -> Result<(), NoMemory> {
        fill(&mut self.first, files, NONE)?;
        fill(&mut self.appended, files, 0)?;
        fill(&mut self.next, places.len(), NONE)?;
        self.find_starts(texts)?;
        self.link(places);
        Ok(())
    }

    fn find_starts(&mut self, texts: &Frames) -> Result<(), NoMemory> {
        self.starts.clear();
        let mut start = 0usize;
        for size in texts.sizes() {
            self.starts.push(start)?;
            start = start.saturating_add(*size);
        }
        Ok(())
    }

    // Links each text to the next one for its file, from the last one on.
    fn link(&mut self, places: &[usize]) {
        for behind in 0..places.len() {
            let number = places.len() - 1 - behind;
            self.link_one(number, places[number]);
        }
    }

    // Puts a text in front of those for its file.
    fn link_one(&mut self, number: usize, file: usize) {
        let before = number_at(&self.first, file);
        if let Some(next) = self.next.get_mut(number) {
            *next = before;
        }
        if let Some(first) = self.first.get_mut(file) {
            *first = number;
        }
    }

    /// Whether the text of this number is the first one for its file.
    pub(crate) fn is_first(&self, number: usize, file: usize) -> bool {
        number_at(&self.first, file) == number
    }

    /// Puts those texts for a file together that have a number below this one.
    pub(crate) fn gather(
        &mut self,
        texts: &Frames,
        file: usize,
        below: usize,
    ) -> Result<(), NoMemory> {
        self.texts.clear();
        let mut number = number_at(&self.first, file);
        for _ in 0..self.next.len() {
            if number >= below {
                return Ok(());
            }
            let start = number_at(&self.starts, number);
            let size = number_at(texts.sizes(), number);
            self.texts.push(text_at(texts, start, size))?;
            number = number_at(&self.next, number);
        }
        Ok(())
    }

    /// The number of the text for a file in front of which there are so many for it.
    pub(crate) fn number_behind(&self, file: usize, count: usize) -> usize {
        let mut number = number_at(&self.first, file);
        for _ in 0..count {
            number = number_at(&self.next, number);
        }
        number
    }

    /// A file has appended the first so many of its texts.
    pub(crate) fn was_appended(&mut self, file: usize, count: usize) {
        if let Some(appended) = self.appended.get_mut(file) {
            *appended = count;
        }
    }

    /// Where a file has appended texts that have this number or a later one, the bytes of those before
    /// them.
    pub(crate) fn kept(&self, texts: &Frames, file: usize, below: usize) -> Option<usize> {
        let mut bytes = 0usize;
        let mut number = number_at(&self.first, file);
        for _ in 0..number_at(&self.appended, file) {
            if number >= below {
                return Some(bytes);
            }
            bytes = bytes.saturating_add(number_at(texts.sizes(), number));
            number = number_at(&self.next, number);
        }
        None
    }
}
