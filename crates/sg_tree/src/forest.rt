// The log paths of a configuration, its names resolved.

use crate::{Path, RewriteRule};
use sg_device::Name;
use sg_filter::Expr;
use sg_r3164::ReadOpts;

/// How the records of an inlet are read.
#[derive(Drop)]
pub struct InletRule {
    pub opts: ReadOpts,
    /// Read as RFC 5424 says, and else as RFC 3164 describes.
    pub rfc5424: bool,
    /// An empty record becomes a message too.
    pub empty_lines: bool,
    /// LF, CR and NUL in MESSAGE become spaces.
    pub one_line: bool,
    /// Set on each message, in this order.
    pub tags: Vec<Name>,
}

/// A destination.
#[derive(Clone, Copy, PartialEq, Eq, Drop)]
pub struct DestRule {}

/// The log paths of a configuration. Inlets, destinations and filters are named by their places.
pub struct Forest {
    pub inlets: Vec<InletRule>,
    pub dests: Vec<DestRule>,
    /// What the names of filters mean, used or not.
    pub filters: Vec<Expr>,
    pub rewrites: Vec<RewriteRule>,
    /// The top-level statements, in the order of the text.
    pub paths: Vec<Path>,
}

impl Drop for Forest {
    fn drop(self) {
        let Forest {
            inlets: _inlets,
            dests: _dests,
            filters: _filters,
            rewrites: _rewrites,
            paths: _paths,
        } = self;
    }
}
