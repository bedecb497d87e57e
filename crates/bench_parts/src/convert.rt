// What becomes of a record.
use crate::record::OPTS;
use bytes::Bytes;
use sg_frame::FrameKind;
use sg_msg::Message;
use sg_outfmt::{DriverKind, Shape, default_shape, frame};
use sg_r5424::SdNames;
use sg_template::Env;
use std::alloc::{AllocError, Global};
use std::io;

// 2026-02-05T17:32:21Z
pub(crate) const PULLED: i64 = 1_770_312_741_000_000;

const ENV: Env = Env {
    zone: None,
    digits: 0,
    iso: false,
    old: None,
};

/// The way of records to their frames.
#[derive(Drop)]
pub(crate) struct Converter {
    pub(crate) alloc: Global,
    pub(crate) kind: FrameKind,
    peer: Bytes,
    names: SdNames,
    shape: Shape,
}

impl Converter {
    /// Of lines of RFC 3164 to texts of a file destination, or of counted records of RFC 5424 to the same again; none by another
    /// word.
    pub(crate) fn new(alloc: Global, form: &str) -> Result<Option<Converter>, AllocError> {
        let (kind, driver) = match form {
            "3164" => (FrameKind::Lines, DriverKind::File),
            "5424" => (FrameKind::Counted, DriverKind::Syslog),
            _ => return Ok(None),
        };
        Ok(Some(Converter {
            alloc,
            kind,
            peer: Bytes::copy_from_slice(alloc, b"peer")?,
            names: SdNames::new(alloc),
            shape: default_shape(alloc, driver)?,
        }))
    }

    fn message(&mut self, item: Bytes) -> io::Result<Message> {
        match self.kind {
            FrameKind::Lines => Ok(sg_r3164::read(self.alloc, item, PULLED, &self.peer, &OPTS)?),
            FrameKind::Counted => {
                let names = &mut self.names;
                match sg_r5424::read(self.alloc, names, item, PULLED, &self.peer, &OPTS) {
                    Ok(message) => Ok(message),
                    Err(_) => Err(io::Error::from(io::ErrorKind::InvalidData)),
                }
            }
        }
    }

    /// Appends the frame of a record.
    pub(crate) fn append_frame(&mut self, item: Bytes, out: &mut Vec<u8>) -> io::Result<()> {
        let message = self.message(item)?;
        frame(&self.shape, &message, &ENV, out)?;
        Ok(())
    }
}
