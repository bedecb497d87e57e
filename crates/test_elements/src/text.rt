// Bytes and names as the tables write them.
use sg_device::Name;
use std::alloc::{AllocError, Global};

// The bytes that the characters stand for.
pub(crate) fn bytes_of(alloc: Global, text: &str) -> Result<Vec<u8>, AllocError> {
    let mut bytes = Vec::new(alloc);
    for letter in text.chars() {
        bytes.push((letter as u32 % 256) as u8)?;
    }
    Ok(bytes)
}

pub(crate) fn name_of(alloc: Global, text: &str) -> Result<Name, AllocError> {
    Ok(Name::from_vec(bytes_of(alloc, text)?))
}

pub(crate) fn names_of(alloc: Global, text: &str) -> Result<Vec<Name>, AllocError> {
    let mut names = Vec::new(alloc);
    for name in text.split(',') {
        names.push(name_of(alloc, name)?)?;
    }
    Ok(names)
}
