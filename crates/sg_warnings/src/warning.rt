// A warning, and the list of them.

use sg_device::{Name, NoMemory};
use std::alloc::Global;

/// How many are told at most.
pub const MOST: usize = 50;

/// What is told of a token.
#[derive(Drop)]
pub struct Warning {
    /// The place of the token among the expanded ones.
    pub at: usize,
    pub words: Name,
}

/// Adds a warning with these texts behind each other, where there aren't more than are told.
pub fn warn(
    alloc: Global,
    at: usize,
    texts: &[&[u8]],
    found: &mut Vec<Warning>,
) -> Result<(), NoMemory> {
    if found.len() > MOST {
        return Ok(());
    }
    let mut words = Vec::new(alloc);
    for text in texts {
        words.extend_from_slice(text)?;
    }
    found.push(Warning {
        at,
        words: Name::from_vec(words),
    })?;
    Ok(())
}
