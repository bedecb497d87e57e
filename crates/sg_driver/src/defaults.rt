// The global options.
ghost use Rattle.std.specs.Prelude.{◌≡◌};
ghost use Rattle.std.specs.Option.{option_copied};
ghost use Rattle.sg_fault.specs.Faults.{least};
ghost use Rattle.sg_driver.specs.Defaults as spec;

use crate::limits::{FIFO_SIZE, FRACTION_DIGITS, MESSAGE_SIZE, REAP_TIME, REOPEN_TIME};
use sg_fault::Placed;
use sg_options::{
    Check, first_bad_option, last_value, mode_or, number_or, one_of_or, truth_or, zone_or,
    zone_or_none,
};
use sg_parse_base::Spot;
use sg_parse_expr::Call;

/// What stands for options that a driver leaves out.
#[derive(Clone, Copy, Drop)]
pub struct Defaults {
    /// `log-fifo-size`, in entries.
    pub fifo: u32,
    /// `log-msg-size`, in bytes.
    pub message_size: u32,
    pub keep_hostname: bool,
    pub keep_timestamp: bool,
    /// `recv-time-zone`, in minutes east of UTC.
    pub received_zone: i16,
    /// `time-zone` of destinations, in minutes east of UTC. Without it each stamp has its own offset.
    pub zone: Option<i16>,
    /// `frac-digits`.
    pub digits: u32,
    /// Whether `ts-format` is `iso`.
    pub iso: bool,
    /// `time-reopen`, in seconds.
    pub reopen: u32,
    /// `time-reap`, in seconds.
    pub reap: u32,
    /// `perm` of files that are made.
    pub mode: u16,
    /// `create-dirs`: whether missing folders on the way to a file are made too.
    pub folders: bool,
    /// `dir-perm` of folders that are made.
    pub folder_mode: u16,
}

const CHECKS: [(&[u8], Check); 9] = [
    (b"log-fifo-size", Check::Within(FIFO_SIZE)),
    (b"log-msg-size", Check::Within(MESSAGE_SIZE)),
    (b"recv-time-zone", Check::Zone),
    (b"time-zone", Check::Zone),
    (b"frac-digits", Check::Within(FRACTION_DIGITS)),
    (b"time-reopen", Check::Within(REOPEN_TIME)),
    (b"time-reap", Check::Within(REAP_TIME)),
    (b"perm", Check::Mode),
    (b"dir-perm", Check::Mode),
];

/// The first fault of the options of a statement `options`: `BadValue` at a value.
#[tactic(auto, unfolding(crate::specs::Defaults::global_checks))]
pub fn options_fault(calls: &[Call]) -> Option<Placed>
    ensures { result ≡ least (spec.options_faults calls.now) }
{
    first_bad_option(&CHECKS, calls)
}

pub fn iso_or(value: Option<&Spot>, default: bool) -> bool
    ensures { result ≡ spec.iso_or (option_copied value.entry) default }
{
    one_of_or(value, &[b"iso", b"rfc3339"], default)
}

impl Defaults {
    /// Those without global options.
    pub fn new() -> Defaults
        ensures value { result ≡ spec.no_options }
        ensures sound { spec.AreDefaults result }
    {
        Defaults {
            fifo: 10_000,
            message_size: 65_536,
            keep_hostname: false,
            keep_timestamp: true,
            received_zone: 0,
            zone: None,
            digits: 0,
            iso: false,
            reopen: 60,
            reap: 60,
            mode: 0o600,
            folders: false,
            folder_mode: 0o700,
        }
    }

    /// Those with the options of a statement `options` behind these. A value out of its range changes
    /// nothing.
    pub fn with_options(self, calls: &[Call]) -> Defaults
        requires { spec.AreDefaults self }
        ensures value { result ≡ spec.with_options calls.now self }
        ensures sound { spec.AreDefaults result }
    {
        Defaults {
            fifo: number_or(last_value(&[b"log-fifo-size"], calls), FIFO_SIZE, self.fifo),
            message_size: number_or(
                last_value(&[b"log-msg-size"], calls),
                MESSAGE_SIZE,
                self.message_size,
            ),
            keep_hostname: truth_or(last_value(&[b"keep-hostname"], calls), self.keep_hostname),
            keep_timestamp: truth_or(last_value(&[b"keep-timestamp"], calls), self.keep_timestamp),
            received_zone: zone_or(last_value(&[b"recv-time-zone"], calls), self.received_zone),
            zone: zone_or_none(last_value(&[b"time-zone"], calls), self.zone),
            digits: number_or(
                last_value(&[b"frac-digits"], calls),
                FRACTION_DIGITS,
                self.digits,
            ),
            iso: iso_or(last_value(&[b"ts-format"], calls), self.iso),
            reopen: number_or(
                last_value(&[b"time-reopen"], calls),
                REOPEN_TIME,
                self.reopen,
            ),
            reap: number_or(last_value(&[b"time-reap"], calls), REAP_TIME, self.reap),
            mode: mode_or(last_value(&[b"perm"], calls), self.mode),
            folders: truth_or(last_value(&[b"create-dirs"], calls), self.folders),
            folder_mode: mode_or(last_value(&[b"dir-perm"], calls), self.folder_mode),
        }
    }
}
