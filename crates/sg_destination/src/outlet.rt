// What the options of a destination make of its outlet.
ghost use Rattle.std.specs.Prelude.{◌≡◌, IfOk};
ghost use Rattle.sg_driver.specs.Driver.{driver_kind};
ghost use Rattle.sg_driver.specs.Defaults.{AreDefaults};
ghost use Rattle.sg_destination.specs.Outlets as spec;

use crate::buffers::{DiskBuffer, buffer_of, overflow_of, port_of};
use crate::by_path::{is_by_path, with_path};
use crate::templates::{Templates, shape_of};
use sg_device::{Name, NoMemory};
use sg_driver::{
    Defaults, FIFO_SIZE, FRACTION_DIGITS, REAP_TIME, REOPEN_TIME, driver_kind, iso_or, name_of,
};
use sg_options::{args_of, last_argument_value, mode_or, number_or, truth_or, zone_or_none};
use sg_outfmt::{DriverKind, Shape};
use sg_outside::OutletSpec;
use sg_parse_expr::Call;
use sg_run_plan::OutletPlan;
use sg_template::Env;
use std::alloc::Global;

/// A driver of a destination.
#[derive(Drop)]
pub struct DestinationDriver {
    pub plan: OutletPlan,
    /// How many entries without flow-control its queue in memory holds.
    pub fifo: u32,
    /// Its disk-buffer, where that is reliable.
    pub buffer: Option<DiskBuffer>,
}

fn reopen_of(defaults: &Defaults, call: &Call) -> u32
    requires { AreDefaults defaults.now }
    ensures { result ≡ spec.reopen_of defaults.now call.now }
{
    let value = last_argument_value(&[b"time-reopen"], args_of(call));
    number_or(value, REOPEN_TIME, defaults.reopen)
}

fn reap_of(defaults: &Defaults, call: &Call) -> u32
    requires { AreDefaults defaults.now }
    ensures { result ≡ spec.reap_of defaults.now call.now }
{
    let value = last_argument_value(&[b"time-reap"], args_of(call));
    number_or(value, REAP_TIME, defaults.reap)
}

// The mode of the folders on the way to a file, where missing ones are made too.
fn folders_of(defaults: &Defaults, call: &Call) -> Option<u16>
    ensures { result ≡ spec.folders_of defaults.now call.now }
{
    let args = args_of(call);
    if !truth_or(
        last_argument_value(&[b"create-dirs"], args),
        defaults.folders,
    ) {
        return None;
    }
    let mode = last_argument_value(&[b"dir-perm"], args);
    Some(mode_or(mode, defaults.folder_mode))
}

fn file_of(alloc: Global, defaults: &Defaults, call: &Call) -> Result<OutletSpec, NoMemory>
    requires { AreDefaults defaults.now }
    ensures { IfOk result (λ outlet. outlet ≡ spec.file_of defaults.now call.now) }
{
    let args = args_of(call);
    let fsync = truth_or(last_argument_value(&[b"fsync"], args), false);
    let mode = mode_or(last_argument_value(&[b"perm"], args), defaults.mode);
    let folders = folders_of(defaults, call);
    let reopen = reopen_of(defaults, call);
    if is_by_path(call) {
        return Ok(OutletSpec::ByPath {
            fsync,
            mode,
            folders,
            reopen,
            reap: reap_of(defaults, call),
        });
    }
    Ok(OutletSpec::File {
        path: Name::new(alloc, name_of(call))?,
        fsync,
        mode,
        folders,
        reopen,
    })
}

fn host_of(alloc: Global, defaults: &Defaults, call: &Call) -> Result<OutletSpec, NoMemory>
    requires { AreDefaults defaults.now }
    ensures { IfOk result (λ outlet. outlet ≡ spec.host_of defaults.now call.now) }
{
    Ok(OutletSpec::Tcp {
        host: Name::new(alloc, name_of(call))?,
        port: port_of(call),
        reopen: reopen_of(defaults, call),
    })
}

fn spec_of(alloc: Global, defaults: &Defaults, call: &Call) -> Result<OutletSpec, NoMemory>
    requires { AreDefaults defaults.now }
    ensures { IfOk result
        (λ outlet. outlet ≡ spec.spec_by (driver_kind call.now) defaults.now call.now) }
{
    match driver_kind(call) {
        DriverKind::File => Ok(file_of(alloc, defaults, call)?),
        DriverKind::Network => Ok(host_of(alloc, defaults, call)?),
        DriverKind::Syslog => Ok(host_of(alloc, defaults, call)?),
    }
}

fn env_of(defaults: &Defaults, call: &Call) -> Env
    requires { AreDefaults defaults.now }
    ensures { spec.HasEnv defaults.now call.now result }
{
    let args = args_of(call);
    let digits = last_argument_value(&[b"frac-digits"], args);
    Env {
        zone: zone_or_none(last_argument_value(&[b"time-zone"], args), defaults.zone),
        digits: number_or(digits, FRACTION_DIGITS, defaults.digits) as u8,
        iso: iso_or(last_argument_value(&[b"ts-format"], args), defaults.iso),
        old: None,
    }
}

fn plan_of<T: Templates>(
    alloc: Global,
    call: &Call,
    defaults: &Defaults,
    templates: &T,
) -> Result<OutletPlan, NoMemory>
    requires { AreDefaults defaults.now }
    ensures { IfOk result (spec.IsOutletPlan defaults.now (T.texts templates.now) call.now) }
{
    let template = last_argument_value(&[b"template"], args_of(call));
    let text = shape_of(alloc, templates, driver_kind(call), template)?;
    Ok(OutletPlan {
        spec: spec_of(alloc, defaults, call)?,
        shape: with_path(alloc, call, text)?,
        env: env_of(defaults, call),
        overflow: overflow_of(alloc, call)?,
    })
}

/// What the options of a driver of a destination make of it. A value out of its range counts as missing,
/// and so does an option that must be given: `destination_fault` refuses them.
pub fn read_destination<T: Templates>(
    alloc: Global,
    call: &Call,
    defaults: &Defaults,
    templates: &T,
) -> Result<DestinationDriver, NoMemory>
    requires { AreDefaults defaults.now }
    ensures { IfOk result (spec.IsDestination defaults.now (T.texts templates.now) call.now) }
{
    let fifo = last_argument_value(&[b"log-fifo-size"], args_of(call));
    Ok(DestinationDriver {
        plan: plan_of(alloc, call, defaults, templates)?,
        fifo: number_or(fifo, FIFO_SIZE, defaults.fifo),
        buffer: buffer_of(alloc, call)?,
    })
}
