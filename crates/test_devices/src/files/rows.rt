// What a row asks.
use sg_device::Frames;
use sg_memory::{OutletScript, PathsPlan};
use sg_memory_disk::FaultPlan;
use std::alloc::{AllocError, Global};

// The numbers behind this letter, in words with commas between.
fn numbers(alloc: Global, words: &str, letter: char) -> Result<Vec<u64>, AllocError> {
    let mut numbers = Vec::new(alloc);
    for word in words.split(',') {
        if let Some(Ok(number)) = word.strip_prefix(letter).map(|rest| rest.parse::<u64>()) {
            numbers.push(number)?;
        }
    }
    Ok(numbers)
}

/// The calls that fail (`f`), the openings and reopenings (`l`) and the sends (`w`) that are too early,
/// how many texts those take (`p`), and the questions for a file that took nothing which are answered
/// by true (`u`).
pub(crate) fn plan(alloc: Global, words: &str) -> Result<PathsPlan, AllocError> {
    let first = numbers(alloc, words, 'p')?;
    Ok(PathsPlan {
        calls: OutletScript {
            fails: FaultPlan::new(numbers(alloc, words, 'f')?),
            first: first.first().map_or(0, |count| *count as usize),
            laters: FaultPlan::new(numbers(alloc, words, 'l')?),
            waits: FaultPlan::new(numbers(alloc, words, 'w')?),
        },
        unused: FaultPlan::new(numbers(alloc, words, 'u')?),
    })
}

// PATH=TEXT is the text under that path, behind the length of the path; another word is a frame as it is.
fn frame(alloc: Global, word: &str) -> Result<Vec<u8>, AllocError> {
    let mut frame = Vec::new(alloc);
    let Some((path, text)) = word.split_once('=') else {
        frame.extend_from_slice(word.as_bytes())?;
        return Ok(frame);
    };
    frame.push(0)?;
    frame.push((path.len() % 256) as u8)?;
    frame.extend_from_slice(path.as_bytes())?;
    frame.extend_from_slice(text.as_bytes())?;
    Ok(frame)
}

/// The frames of words with commas between.
pub(crate) fn frames(alloc: Global, words: &str) -> Result<Frames, AllocError> {
    let mut frames = Frames::new(alloc);
    for word in words.split(',') {
        let frame = frame(alloc, word)?;
        frames.push(&frame)?;
    }
    Ok(frames)
}
