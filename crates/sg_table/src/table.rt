// The table.
ghost use Rattle.sg_table.specs.Table.{IsPipeTable, IsPipeTable-prop};

use crate::{Pipe, Top};
use sg_tree::{DestRule, InletRule};

/// The log paths of a configuration as numbered pipes. It holds no tree.
pub struct Table {
    pub inlets: Vec<InletRule>,
    pub dests: Vec<DestRule>,
    /// The top-level statements, in the order of the text.
    pub tops: Vec<Top>,
    /// Each refers to those in front of it alone.
    pub pipes: Vec<Pipe>,
    pub ghost in_order: { IsPipeTable pipes.items } by { IsPipeTable-prop pipes.items },
}

impl Drop for Table {
    fn drop(self) {
        let Table {
            inlets: _inlets,
            dests: _dests,
            tops: _tops,
            pipes: _pipes,
        } = self;
    }
}
