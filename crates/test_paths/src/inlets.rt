// The inlets of each row.

use crate::rules::name_of;
use sg_r3164::ReadOpts;
use sg_tree::InletRule;
use std::alloc::{AllocError, Global};

const OPTS: ReadOpts = ReadOpts {
    pri: 13,
    zone: 0,
    keep_hostname: true,
    keep_timestamp: true,
    parse: false,
};

fn inlet(alloc: Global, empty_lines: bool, one_line: bool) -> InletRule {
    InletRule {
        opts: OPTS,
        rfc5424: false,
        empty_lines,
        one_line,
        tags: Vec::new(alloc),
    }
}

fn tagged(alloc: Global, tag: &str) -> Result<InletRule, AllocError> {
    let mut tags = Vec::new(alloc);
    tags.push(name_of(alloc, tag)?)?;
    Ok(InletRule {
        opts: OPTS,
        rfc5424: true,
        empty_lines: false,
        one_line: false,
        tags,
    })
}

fn push(all: &mut Vec<InletRule>, rule: InletRule) -> Result<(), AllocError> {
    all.push(rule)?;
    Ok(())
}

pub(crate) fn inlets(alloc: Global) -> Result<Vec<InletRule>, AllocError> {
    let mut all = Vec::new(alloc);
    push(&mut all, inlet(alloc, false, false))?;
    push(&mut all, inlet(alloc, false, false))?;
    push(&mut all, inlet(alloc, true, false))?;
    push(&mut all, tagged(alloc, "t")?)?;
    push(&mut all, inlet(alloc, false, true))?;
    Ok(all)
}
