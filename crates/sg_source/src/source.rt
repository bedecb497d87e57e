// The drivers of sources.
ghost use Rattle.std.specs.Prelude.{◌≡◌, ◌≤◌, IfOk};
ghost use Rattle.std.specs.Option.{option_copied};
ghost use Rattle.sg_fault.specs.Faults.{least};
ghost use Rattle.sg_options.specs.Settings.{calls_of, last_option};
ghost use Rattle.sg_options.specs.Checks.{bad_values};
ghost use Rattle.sg_driver.specs.Driver.{options_of};
ghost use Rattle.sg_source.specs.Sources as spec;

use sg_device::{Name, NoMemory};
use sg_driver::{
    CONNECTIONS, FETCH_LIMIT, MESSAGE_SIZE, PORTS, WINDOW_SIZE, driver_kind, long_name,
    missing_unless, name_of,
};
use sg_fault::{Placed, earlier};
use sg_options::{
    Check, args_of, first_bad_argument, last_argument, last_argument_value, number_in,
    position_name,
};
use sg_outfmt::DriverKind;
use sg_parse_base::Spot;
use sg_parse_expr::{Arg, Call};
use std::alloc::Global;

const CHECKS: [(&[u8], Check); 8] = [
    (b"log-iw-size", Check::Within(WINDOW_SIZE)),
    (b"log-fetch-limit", Check::Within(FETCH_LIMIT)),
    (b"log-msg-size", Check::Within(MESSAGE_SIZE)),
    (b"recv-time-zone", Check::Zone),
    (b"time-zone", Check::Zone),
    (b"default-facility", Check::Facility),
    (b"default-level", Check::Level),
    (b"default-priority", Check::Level),
];

const LISTENER_CHECKS: [(&[u8], Check); 3] = [
    (b"port", Check::Within(PORTS)),
    (b"localport", Check::Within(PORTS)),
    (b"max-connections", Check::Within(CONNECTIONS)),
];

#[tactic(auto, unfolding(crate::specs::Sources::source_checks))]
fn bad_option(args: &[Arg]) -> Option<Placed>
    ensures { result ≡ least (bad_values spec.source_checks (calls_of args.now)) }
{
    first_bad_argument(&CHECKS, args)
}

#[tactic(auto, unfolding(crate::specs::Sources::listener_checks))]
fn bad_listener_option(args: &[Arg]) -> Option<Placed>
    ensures { result ≡ least (bad_values spec.listener_checks (calls_of args.now)) }
{
    first_bad_argument(&LISTENER_CHECKS, args)
}

// The port of a listener.
pub(crate) fn port_option(call: &Call) -> Option<&Call>
    ensures { option_copied result ≡ last_option spec.port_words (options_of call.now) }
{
    last_argument(&[b"port", b"localport"], args_of(call))
}

#[tactic(auto, using(sg_fault::proofs::Least::least_append))]
fn listening_fault(call: &Call) -> Option<Placed>
    ensures { result ≡ least (spec.listening_faults call.now) }
{
    let missing = missing_unless(port_option(call), call);
    earlier(missing, bad_listener_option(args_of(call)))
}

fn listener_fault(kind: DriverKind, call: &Call) -> Option<Placed>
    ensures { result ≡ least (spec.listener_faults kind call.now) }
{
    match kind {
        DriverKind::File => None,
        DriverKind::Network => listening_fault(call),
        DriverKind::Syslog => listening_fault(call),
    }
}

/// The name of the store in which a source keeps its position, of a file alone.
pub fn store_of_source(alloc: Global, call: &Call) -> Result<Option<Name>, NoMemory>
    ensures { IfOk result (λ store. store ≡ spec.store_of_source call.now) }
{
    match driver_kind(call) {
        DriverKind::File => Ok(Some(position_name(alloc, name_of(call))?)),
        DriverKind::Network => Ok(None),
        DriverKind::Syslog => Ok(None),
    }
}

/// The first fault of a driver of a source: `MissingOption` at its word, and `BadValue` at the value of
/// an option, or at a path whose store's name is too long.
#[tactic(auto, using(sg_fault::proofs::Least::least_append))]
pub fn source_fault(alloc: Global, call: &Call) -> Result<Option<Placed>, NoMemory>
    ensures { IfOk result (λ fault. fault ≡ least (spec.source_faults call.now)) }
{
    let store = store_of_source(alloc, call)?;
    let own = listener_fault(driver_kind(call), call);
    let others = earlier(bad_option(args_of(call)), long_name(call, &store));
    Ok(earlier(own, others))
}

fn connection_count(value: Option<&Spot>) -> u32
    ensures value { result ≡ spec.connection_count (option_copied value.entry) }
    ensures bound { result ≤ 100 }
{
    let Some(spot) = value else {
        return 10;
    };
    match number_in(spot.token.text.bytes(), CONNECTIONS) {
        Some(count) => count,
        None => 0,
    }
}

/// How many inlets a driver of a source is, which counts towards their limit: 1 of a file, and as many
/// as it may have connections of a listener, 0 where that number is out of its range.
pub fn inlet_count(call: &Call) -> u32
    ensures value { result ≡ spec.inlet_count call.now }
    ensures bound { result ≤ 100 }
{
    match driver_kind(call) {
        DriverKind::File => 1,
        _ => connection_count(last_argument_value(&[b"max-connections"], args_of(call))),
    }
}
