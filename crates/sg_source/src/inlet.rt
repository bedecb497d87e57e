// What the options of a source make of its inlets.
ghost use Rattle.std.specs.Prelude.{◌≡◌, ◌≤◌, ◌<◌, ◌≤ℤ◌, pos, negsuc, IfOk, map};
ghost use Rattle.std.specs.Option.{option_copied};
ghost use Rattle.sg_options.specs.Settings.{items_of};
ghost use Rattle.sg_driver.specs.Defaults.{AreDefaults};
ghost use Rattle.sg_source.specs.Inlets as spec;

use sg_device::{Name, NoMemory};
use sg_driver::{
    CONNECTIONS, Defaults, FETCH_LIMIT, MESSAGE_SIZE, PORTS, WINDOW_SIZE, driver_kind, name_of,
};
use sg_frame::FrameKind;
use sg_list::Seq;
use sg_options::{
    args_of, facility_or, has_flag, item_of, last_argument, last_argument_value, level_or,
    number_or, position_name, text_or, truth_or, zone_or,
};
use sg_outfmt::DriverKind;
use sg_outside::InletSpec;
use sg_parse_base::Spot;
use sg_parse_expr::{Arg, Call};
use sg_r3164::ReadOpts;
use sg_run_plan::InletPlan;
use std::alloc::Global;

/// Where the records of a source's driver come from.
#[derive(Drop)]
pub enum SourceOrigin {
    File { path: Name },
    /// Connections to this address, so many at a time.
    Listener { ip: Name, port: u16, slots: u16 },
}

/// A driver of a source.
#[derive(Drop)]
pub struct SourceDriver {
    pub place: SourceOrigin,
    pub kind: FrameKind,
    /// How many bytes a record may have.
    pub limit: u32,
    /// How many records are taken in one turn.
    pub fetch: u32,
    /// How many records of one inlet may be outstanding.
    pub window: u32,
    /// How a record is read.
    pub opts: ReadOpts,
    /// Read as RFC 5424 says, and else as RFC 3164 describes.
    pub rfc5424: bool,
    /// An empty record becomes a message too.
    pub empty_lines: bool,
    /// LF, CR and NUL in MESSAGE become spaces.
    pub one_line: bool,
    /// Set on each message, in this order.
    pub tags: Seq<Name>,
}

const FACILITY_WORDS: [&[u8]; 1] = [b"default-facility"];

const LEVEL_WORDS: [&[u8]; 2] = [b"default-level", b"default-priority"];

fn is_flagged(word: &[u8], call: &Call) -> bool
    ensures { result ≡ spec.is_flagged word.now call.now }
{
    has_flag(word, last_argument(&[b"flags"], args_of(call)))
}

fn slots_of(call: &Call) -> u32
    ensures value { result ≡ spec.slots_of call.now }
    ensures least { 1 ≤ result }
    ensures most { result ≤ 100 }
{
    let value = last_argument_value(&[b"max-connections"], args_of(call));
    number_or(value, CONNECTIONS, 10)
}

// The port of a listener, 0 where it is missing.
fn port_of(call: &Call) -> u16
    ensures { result ≡ spec.port_of call.now }
{
    let value = last_argument_value(&[b"port", b"localport"], args_of(call));
    number_or(value, PORTS, 0) as u16
}

fn listener_of(alloc: Global, call: &Call) -> Result<SourceOrigin, NoMemory>
    ensures { IfOk result (λ place. place ≡ spec.listener_of call.now) }
{
    let args = args_of(call);
    let ip = text_or(last_argument_value(&[b"ip"], args), b"0.0.0.0");
    Ok(SourceOrigin::Listener {
        ip: Name::new(alloc, ip)?,
        port: port_of(call),
        slots: slots_of(call) as u16,
    })
}

fn place_of(alloc: Global, call: &Call) -> Result<SourceOrigin, NoMemory>
    ensures { IfOk result (λ place. place ≡ spec.place_of call.now) }
{
    match driver_kind(call) {
        DriverKind::File => Ok(SourceOrigin::File {
            path: Name::new(alloc, name_of(call))?,
        }),
        DriverKind::Network => listener_of(alloc, call),
        DriverKind::Syslog => listener_of(alloc, call),
    }
}

fn frames_by(kind: DriverKind) -> FrameKind
    ensures { result ≡ spec.frames_by kind }
{
    match kind {
        DriverKind::Syslog => FrameKind::Counted,
        _ => FrameKind::Lines,
    }
}

fn raised(window: u32) -> u32
    ensures { result ≡ spec.raised window }
{
    if window < 100 { 100 } else { window }
}

fn window_by(kind: DriverKind, value: Option<&Spot>, slots: u32) -> u32
    requires { 1 ≤ slots }
    ensures { result ≡ spec.window_by kind (option_copied value.entry) slots }
{
    match kind {
        DriverKind::File => raised(number_or(value, WINDOW_SIZE, 100)),
        _ => raised(number_or(value, WINDOW_SIZE, 1_000) / slots),
    }
}

fn window_of(call: &Call) -> u32
    ensures { result ≡ spec.window_of call.now }
{
    let value = last_argument_value(&[b"log-iw-size"], args_of(call));
    window_by(driver_kind(call), value, slots_of(call))
}

// The facility of a record that has none, where no option says it.
fn default_facility(call: &Call) -> u8
    ensures value { result ≡ spec.default_facility call.now }
    ensures bound { result < 24 }
{
    let args = args_of(call);
    if is_flagged(b"kernel", call)
        && last_argument(&FACILITY_WORDS, args).is_none()
        && last_argument(&LEVEL_WORDS, args).is_none()
    {
        0
    } else {
        1
    }
}

fn pri_of(call: &Call) -> u8
    ensures value { result ≡ spec.pri_of call.now }
    ensures bound { result ≤ 191 }
{
    let args = args_of(call);
    let facility = facility_or(
        last_argument_value(&FACILITY_WORDS, args),
        default_facility(call),
    );
    let level = level_or(last_argument_value(&LEVEL_WORDS, args), 5);
    facility * 8 + level
}

fn zone_of(call: &Call, default: i16) -> i16
    requires { (negsuc 1438 ≤ℤ default) × (default ≤ℤ pos 1439) }
    ensures value { result ≡ spec.zone_of call.now default }
    ensures from { negsuc 1438 ≤ℤ result }
    ensures to { result ≤ℤ pos 1439 }
{
    let value = last_argument_value(&[b"recv-time-zone", b"time-zone"], args_of(call));
    zone_or(value, default)
}

fn opts_of(call: &Call, defaults: &Defaults) -> ReadOpts
    requires { AreDefaults defaults.now }
    ensures { spec.HasOpts defaults.now call.now result }
{
    let args = args_of(call);
    ReadOpts {
        pri: pri_of(call),
        zone: zone_of(call, defaults.received_zone),
        keep_hostname: truth_or(
            last_argument_value(&[b"keep-hostname"], args),
            defaults.keep_hostname,
        ),
        keep_timestamp: truth_or(
            last_argument_value(&[b"keep-timestamp"], args),
            defaults.keep_timestamp,
        ),
        parse: !is_flagged(b"no-parse", call),
    }
}

fn reads_5424(call: &Call) -> bool
    ensures { result ≡ spec.reads_5424 call.now }
{
    if is_flagged(b"no-parse", call) {
        return false;
    }
    match driver_kind(call) {
        DriverKind::Syslog => true,
        _ => is_flagged(b"syslog-protocol", call),
    }
}

// The texts of the values among arguments.
fn texts_of(alloc: Global, args: &[Arg]) -> Result<Seq<Name>, NoMemory>
    ensures { IfOk result (λ names. names ≡ map (λ spot. spot.token.text) (items_of args.now)) }
{
    let mut names = Seq::empty(alloc);
    for arg in args {
        if let Some(spot) = item_of(arg) {
            names.push(spot.token.text.copy()?)?;
        }
    }
    Ok(names)
}

fn tags_of(alloc: Global, call: &Call) -> Result<Seq<Name>, NoMemory>
    ensures { IfOk result (λ names. names ≡ spec.tags_of call.now) }
{
    match last_argument(&[b"tags"], args_of(call)) {
        Some(tags) => texts_of(alloc, args_of(tags)),
        None => Ok(Seq::empty(alloc)),
    }
}

/// What the options of a driver of a source make of it. A value out of its range counts as missing, and
/// so does an option that must be given: `source_fault` refuses them.
pub fn read_source(
    alloc: Global,
    call: &Call,
    defaults: &Defaults,
) -> Result<SourceDriver, NoMemory>
    requires { AreDefaults defaults.now }
    ensures { IfOk result (spec.IsSourceDriver defaults.now call.now) }
{
    let args = args_of(call);
    Ok(SourceDriver {
        place: place_of(alloc, call)?,
        kind: frames_by(driver_kind(call)),
        limit: number_or(
            last_argument_value(&[b"log-msg-size"], args),
            MESSAGE_SIZE,
            defaults.message_size,
        ),
        fetch: number_or(
            last_argument_value(&[b"log-fetch-limit"], args),
            FETCH_LIMIT,
            100,
        ),
        window: window_of(call),
        opts: opts_of(call, defaults),
        rfc5424: reads_5424(call),
        empty_lines: is_flagged(b"empty-lines", call),
        one_line: is_flagged(b"no-multi-line", call),
        tags: tags_of(alloc, call)?,
    })
}

impl SourceDriver {
    /// How many inlets it is: 1 of a file, and else one for each connection.
    pub fn slots(&self) -> u16
        ensures { result ≡ spec.slots_at self.now.place }
    {
        match &self.place {
            SourceOrigin::File { .. } => 1,
            SourceOrigin::Listener { slots, .. } => *slots,
        }
    }

    /// The inlet of this slot, in the source of this name. The number is that of this driver.
    pub fn plan(&self, slot: u16, driver: u32, source: Option<&Name>) -> Result<InletPlan, NoMemory>
        ensures { IfOk result
            (λ plan. plan ≡ spec.plan_of self.now slot driver (option_copied source.entry)) }
    {
        Ok(InletPlan {
            spec: self.spec_at(slot)?,
            source: copied_name(source)?,
            driver,
            kind: self.kind,
            limit: self.limit,
            fetch: self.fetch,
        })
    }

    fn spec_at(&self, slot: u16) -> Result<InletSpec, NoMemory>
        ensures { IfOk result (λ inlet. inlet ≡ spec.spec_at self.now.place self.now.limit slot) }
    {
        match &self.place {
            SourceOrigin::File { path } => Ok(InletSpec::File {
                path: path.copy()?,
                once: false,
                limit: self.limit,
            }),
            SourceOrigin::Listener { ip, port, .. } => Ok(InletSpec::Slot {
                ip: ip.copy()?,
                port: *port,
                slot,
                once: false,
            }),
        }
    }

    /// The name of the store of its position, of a file alone.
    pub fn store(&self, alloc: Global) -> Result<Option<Name>, NoMemory>
        ensures { IfOk result (λ store. store ≡ spec.store_at self.now.place) }
    {
        match &self.place {
            SourceOrigin::File { path } => Ok(Some(position_name(alloc, path.bytes())?)),
            SourceOrigin::Listener { .. } => Ok(None),
        }
    }
}

fn copied_name(name: Option<&Name>) -> Result<Option<Name>, NoMemory>
    ensures { IfOk result (λ copy. copy ≡ option_copied name.entry) }
{
    match name {
        Some(name) => Ok(Some(name.copy()?)),
        None => Ok(None),
    }
}
