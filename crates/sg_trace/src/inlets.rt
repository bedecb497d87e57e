// The inlet that a source's records come by.
ghost use Rattle.std.specs.Prelude.{◌≡◌, ◌<◌, ◌^◌, length};
ghost use Rattle.sg_trace.specs.Tracing.{is_named, first_of, IsReader};

use crate::FileReading;
use sg_device::Name;
use sg_run_plan::InletPlan;

fn is_named(source: &[u8], name: &Option<Name>) -> bool
    ensures { result ≡ is_named source.now name.now }
{
    match name {
        Some(name) => name.bytes() == source,
        None => false,
    }
}

/// The number of the first inlet of a source statement; none where no statement of that name has a driver.
pub(crate) fn first_inlet(source: &[u8], inlets: &[InletPlan]) -> Option<u32>
    requires { length inlets.now < 2 ^ 32 }
    ensures { result ≡ first_of 0 source.now inlets.now }
{
    let mut number = 0;
    for inlet in inlets {
        if is_named(source, &inlet.source) {
            return Some(number);
        }
        number += 1;
    }
    None
}

/// Whether a source statement of that name has a driver.
pub(crate) fn has_inlet(source: &[u8], inlets: &[InletPlan]) -> bool {
    for inlet in inlets {
        if is_named(source, &inlet.source) {
            return true;
        }
    }
    false
}

/// How the inlet of this number reads.
pub(crate) fn reader_of(inlets: &[InletPlan], inlet: u32) -> FileReading
    requires { inlet < length inlets.now }
    ensures { IsReader inlets.now inlet result }
{
    let plan = &inlets[inlet as usize];
    FileReading {
        inlet,
        kind: plan.kind,
        limit: plan.limit,
    }
}
