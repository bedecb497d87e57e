// The drivers of destinations.
ghost use Rattle.std.specs.Prelude.{◌≡◌, IfOk};
ghost use Rattle.sg_fault.specs.Faults.{least};
ghost use Rattle.sg_options.specs.Settings.{calls_of};
ghost use Rattle.sg_options.specs.Checks.{bad_values};
ghost use Rattle.sg_destination.specs.Destinations as spec;

use crate::buffers::{buffer_fault, store_of_destination};
use crate::templates::{Templates, template_fault};
use sg_device::NoMemory;
use sg_driver::{
    FIFO_SIZE, FRACTION_DIGITS, PORTS, REAP_TIME, REOPEN_TIME, driver_kind, long_name,
    missing_unless,
};
use sg_fault::{Placed, earlier};
use sg_options::{Check, args_of, first_bad_argument, last_argument};
use sg_outfmt::DriverKind;
use sg_parse_expr::{Arg, Call};
use std::alloc::Global;

const CHECKS: [(&[u8], Check); 4] = [
    (b"log-fifo-size", Check::Within(FIFO_SIZE)),
    (b"time-zone", Check::Zone),
    (b"frac-digits", Check::Within(FRACTION_DIGITS)),
    (b"time-reopen", Check::Within(REOPEN_TIME)),
];

const FILE_CHECKS: [(&[u8], Check); 3] = [
    (b"perm", Check::Mode),
    (b"dir-perm", Check::Mode),
    (b"time-reap", Check::Within(REAP_TIME)),
];

const HOST_CHECKS: [(&[u8], Check); 1] = [(b"port", Check::Within(PORTS))];

#[tactic(auto, unfolding(crate::specs::Destinations::destination_checks))]
fn bad_option(args: &[Arg]) -> Option<Placed>
    ensures { result ≡ least (bad_values spec.destination_checks (calls_of args.now)) }
{
    first_bad_argument(&CHECKS, args)
}

#[tactic(auto, unfolding(crate::specs::Destinations::file_checks))]
fn bad_file_option(args: &[Arg]) -> Option<Placed>
    ensures { result ≡ least (bad_values spec.file_checks (calls_of args.now)) }
{
    first_bad_argument(&FILE_CHECKS, args)
}

#[tactic(auto, unfolding(crate::specs::Destinations::host_checks))]
fn bad_host_option(args: &[Arg]) -> Option<Placed>
    ensures { result ≡ least (bad_values spec.host_checks (calls_of args.now)) }
{
    first_bad_argument(&HOST_CHECKS, args)
}

fn host_fault(call: &Call) -> Option<Placed>
    ensures { result ≡ least (spec.host_faults call.now) }
{
    let port = last_argument(&[b"port"], args_of(call));
    earlier(missing_unless(port, call), bad_host_option(args_of(call)))
}

fn further_fault(kind: DriverKind, call: &Call) -> Option<Placed>
    ensures { result ≡ least (spec.further_faults kind call.now) }
{
    match kind {
        DriverKind::File => bad_file_option(args_of(call)),
        DriverKind::Network => host_fault(call),
        DriverKind::Syslog => host_fault(call),
    }
}

#[tactic(auto, using(sg_fault::proofs::Least::least_append))]
fn value_fault(call: &Call) -> Option<Placed>
    ensures { result ≡ least (spec.value_faults call.now) }
{
    earlier(
        further_fault(driver_kind(call), call),
        bad_option(args_of(call)),
    )
}

#[tactic(auto, using(sg_fault::proofs::Least::least_append))]
fn store_fault(alloc: Global, call: &Call) -> Result<Option<Placed>, NoMemory>
    ensures { IfOk result (λ fault. fault ≡ least (spec.store_faults call.now)) }
{
    let store = store_of_destination(alloc, call)?;
    Ok(earlier(buffer_fault(args_of(call)), long_name(call, &store)))
}

/// The first fault of a driver of a destination: `MissingOption` at its word or at that of a disk-buffer,
/// `BadValue` at the value of an option, or at the path or host where the name of its disk-buffer's store
/// is too long, `UnknownName`, `OpenBrace` and `Function` at the value of `template`.
#[tactic(auto, using(sg_fault::proofs::Least::least_append))]
pub fn destination_fault<T: Templates>(
    alloc: Global,
    call: &Call,
    templates: &T,
) -> Result<Option<Placed>, NoMemory>
    ensures { IfOk result
        (λ fault. fault ≡ least (spec.destination_faults (T.texts templates.now) call.now)) }
{
    let store = store_fault(alloc, call)?;
    let template = template_fault(alloc, templates, args_of(call))?;
    Ok(earlier(value_fault(call), earlier(store, template)))
}
