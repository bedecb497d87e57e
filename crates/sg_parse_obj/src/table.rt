// The options of drivers and the global ones, with the forms of their arguments.
ghost use Rattle.std.specs.Prelude.{◌≡◌};
ghost use Rattle.sg_parse_expr.specs.Forms.{row_of};
ghost use Rattle.sg_parse_obj.specs.Tables as spec;

use sg_parse_expr::{Class, Flat, WordChoice, row_of};

/// The form of an option of a driver.
#[derive(Clone, Copy, Drop)]
pub enum OptionForm {
    Flat(Flat),
    /// The options of a disk-buffer.
    Disk,
}

/// The options of a driver.
#[derive(Clone, Copy, Drop)]
pub enum OptionTable {
    FileSource,
    NetworkSource,
    FileDestination,
    NetworkDestination,
    SyslogDestination,
}

/// The form of a driver's arguments.
#[derive(Clone, Copy, Drop)]
pub enum DriverForm {
    Options(OptionTable),
    /// A value and options.
    Named(Class, OptionTable),
}

const SOURCE_DRIVERS: [(&[u8], DriverForm); 3] = [
    (
        b"file",
        DriverForm::Named(Class::Name, OptionTable::FileSource),
    ),
    (b"network", DriverForm::Options(OptionTable::NetworkSource)),
    (b"syslog", DriverForm::Options(OptionTable::NetworkSource)),
];

const DESTINATION_DRIVERS: [(&[u8], DriverForm); 3] = [
    (
        b"file",
        DriverForm::Named(Class::Template, OptionTable::FileDestination),
    ),
    (
        b"network",
        DriverForm::Named(Class::Name, OptionTable::NetworkDestination),
    ),
    (
        b"syslog",
        DriverForm::Named(Class::Name, OptionTable::SyslogDestination),
    ),
];

const SOURCE: [(&[u8], OptionForm); 12] = [
    (
        b"flags",
        OptionForm::Flat(Flat::Many(Class::Word(WordChoice::SourceFlag))),
    ),
    (b"log-iw-size", OptionForm::Flat(Flat::One(Class::Number))),
    (
        b"log-fetch-limit",
        OptionForm::Flat(Flat::One(Class::Number)),
    ),
    (b"log-msg-size", OptionForm::Flat(Flat::One(Class::Number))),
    (b"keep-hostname", OptionForm::Flat(Flat::One(Class::Truth))),
    (b"keep-timestamp", OptionForm::Flat(Flat::One(Class::Truth))),
    (b"recv-time-zone", OptionForm::Flat(Flat::One(Class::Name))),
    (b"time-zone", OptionForm::Flat(Flat::One(Class::Name))),
    (
        b"default-facility",
        OptionForm::Flat(Flat::One(Class::Facility)),
    ),
    (b"default-level", OptionForm::Flat(Flat::One(Class::Level))),
    (
        b"default-priority",
        OptionForm::Flat(Flat::One(Class::Level)),
    ),
    (b"tags", OptionForm::Flat(Flat::Many(Class::Name))),
];

const LISTENER: [(&[u8], OptionForm); 5] = [
    (b"ip", OptionForm::Flat(Flat::One(Class::Name))),
    (b"port", OptionForm::Flat(Flat::One(Class::Number))),
    (b"localport", OptionForm::Flat(Flat::One(Class::Number))),
    (
        b"transport",
        OptionForm::Flat(Flat::One(Class::Word(WordChoice::Transport))),
    ),
    (
        b"max-connections",
        OptionForm::Flat(Flat::One(Class::Number)),
    ),
];

const DESTINATION: [(&[u8], OptionForm); 6] = [
    (b"log-fifo-size", OptionForm::Flat(Flat::One(Class::Number))),
    (b"disk-buffer", OptionForm::Disk),
    (b"time-zone", OptionForm::Flat(Flat::One(Class::Name))),
    (b"frac-digits", OptionForm::Flat(Flat::One(Class::Number))),
    (
        b"ts-format",
        OptionForm::Flat(Flat::One(Class::Word(WordChoice::StampForm))),
    ),
    (b"time-reopen", OptionForm::Flat(Flat::One(Class::Number))),
];

const WRITER: [(&[u8], OptionForm); 6] = [
    (b"template", OptionForm::Flat(Flat::One(Class::Name))),
    (b"fsync", OptionForm::Flat(Flat::One(Class::Truth))),
    (b"perm", OptionForm::Flat(Flat::One(Class::Name))),
    (b"create-dirs", OptionForm::Flat(Flat::One(Class::Truth))),
    (b"dir-perm", OptionForm::Flat(Flat::One(Class::Name))),
    (b"time-reap", OptionForm::Flat(Flat::One(Class::Number))),
];

const SENDER: [(&[u8], OptionForm); 2] = [
    (b"port", OptionForm::Flat(Flat::One(Class::Number))),
    (
        b"transport",
        OptionForm::Flat(Flat::One(Class::Word(WordChoice::Transport))),
    ),
];

const FRAMED: [(&[u8], OptionForm); 1] = [(b"template", OptionForm::Flat(Flat::One(Class::Name)))];

const DISK: [(&[u8], Flat); 13] = [
    (b"reliable", Flat::One(Class::Truth)),
    (b"disk-buf-size", Flat::One(Class::Number)),
    (b"capacity-bytes", Flat::One(Class::Number)),
    (b"dir", Flat::One(Class::Name)),
    (b"mem-buf-size", Flat::Skipped),
    (b"mem-buf-length", Flat::One(Class::Number)),
    (b"qout-size", Flat::Skipped),
    (b"front-cache-size", Flat::Skipped),
    (b"flow-control-window-bytes", Flat::Skipped),
    (b"flow-control-window-size", Flat::Skipped),
    (b"truncate-size-ratio", Flat::Skipped),
    (b"prealloc", Flat::One(Class::Truth)),
    (b"compaction", Flat::Skipped),
];

const GLOBAL: [(&[u8], Flat); 15] = [
    (b"log-fifo-size", Flat::One(Class::Number)),
    (b"log-msg-size", Flat::One(Class::Number)),
    (b"keep-hostname", Flat::One(Class::Truth)),
    (b"keep-timestamp", Flat::One(Class::Truth)),
    (b"recv-time-zone", Flat::One(Class::Name)),
    (b"time-zone", Flat::One(Class::Name)),
    (b"frac-digits", Flat::One(Class::Number)),
    (b"ts-format", Flat::One(Class::Word(WordChoice::StampForm))),
    (b"time-reopen", Flat::One(Class::Number)),
    (b"time-reap", Flat::One(Class::Number)),
    (b"perm", Flat::One(Class::Name)),
    (b"create-dirs", Flat::One(Class::Truth)),
    (b"dir-perm", Flat::One(Class::Name)),
    (b"log-iw-size", Flat::Skipped),
    (b"log-fetch-limit", Flat::Skipped),
];

/// Options without effect.
const WITHOUT_EFFECT: [(&[u8], Flat); 43] = [
    (b"owner", Flat::Skipped),
    (b"group", Flat::Skipped),
    (b"dir-owner", Flat::Skipped),
    (b"dir-group", Flat::Skipped),
    (b"dir-perm", Flat::Skipped),
    (b"create-dirs", Flat::Skipped),
    (b"use-dns", Flat::Skipped),
    (b"dns-cache", Flat::Skipped),
    (b"dns-cache-size", Flat::Skipped),
    (b"dns-cache-expire", Flat::Skipped),
    (b"dns-cache-expire-failed", Flat::Skipped),
    (b"dns-cache-hosts", Flat::Skipped),
    (b"use-fqdn", Flat::Skipped),
    (b"chain-hostnames", Flat::Skipped),
    (b"check-hostname", Flat::Skipped),
    (b"normalize-hostnames", Flat::Skipped),
    (b"bad-hostname", Flat::Skipped),
    (b"flush-lines", Flat::Skipped),
    (b"flush-timeout", Flat::Skipped),
    (b"sync", Flat::Skipped),
    (b"stats", Flat::Skipped),
    (b"stats-freq", Flat::Skipped),
    (b"stats-level", Flat::Skipped),
    (b"stats-lifetime", Flat::Skipped),
    (b"mark", Flat::Skipped),
    (b"mark-freq", Flat::Skipped),
    (b"mark-mode", Flat::Skipped),
    (b"time-reap", Flat::Skipped),
    (b"time-sleep", Flat::Skipped),
    (b"follow-freq", Flat::Skipped),
    (b"threaded", Flat::Skipped),
    (b"use-rcptid", Flat::Skipped),
    (b"use-uniqid", Flat::Skipped),
    (b"log-level", Flat::Skipped),
    (b"so-keepalive", Flat::Skipped),
    (b"so-rcvbuf", Flat::Skipped),
    (b"so-sndbuf", Flat::Skipped),
    (b"ip-tos", Flat::Skipped),
    (b"ip-ttl", Flat::Skipped),
    (b"persist-name", Flat::Skipped),
    (b"fsync", Flat::Skipped),
    (b"time-reopen", Flat::Skipped),
    (b"perm", Flat::Skipped),
];

#[tactic(auto, unfolding(crate::specs::Tables::source_drivers))]
pub fn source_driver(text: &[u8]) -> Option<DriverForm>
    ensures { result ≡ row_of spec.source_drivers text.now }
{
    row_of(&SOURCE_DRIVERS, text)
}

#[tactic(auto, unfolding(crate::specs::Tables::destination_drivers))]
pub fn destination_driver(text: &[u8]) -> Option<DriverForm>
    ensures { result ≡ row_of spec.destination_drivers text.now }
{
    row_of(&DESTINATION_DRIVERS, text)
}

#[tactic(auto, unfolding(crate::specs::Tables::source))]
fn source(text: &[u8]) -> Option<OptionForm>
    ensures { result ≡ row_of spec.source text.now }
{
    row_of(&SOURCE, text)
}

#[tactic(auto, unfolding(crate::specs::Tables::listener))]
fn listener(text: &[u8]) -> Option<OptionForm>
    ensures { result ≡ row_of spec.listener text.now }
{
    row_of(&LISTENER, text)
}

#[tactic(auto, unfolding(crate::specs::Tables::destination))]
fn destination(text: &[u8]) -> Option<OptionForm>
    ensures { result ≡ row_of spec.destination text.now }
{
    row_of(&DESTINATION, text)
}

#[tactic(auto, unfolding(crate::specs::Tables::writer))]
fn writer(text: &[u8]) -> Option<OptionForm>
    ensures { result ≡ row_of spec.writer text.now }
{
    row_of(&WRITER, text)
}

#[tactic(auto, unfolding(crate::specs::Tables::sender))]
fn sender(text: &[u8]) -> Option<OptionForm>
    ensures { result ≡ row_of spec.sender text.now }
{
    row_of(&SENDER, text)
}

#[tactic(auto, unfolding(crate::specs::Tables::framed))]
fn framed(text: &[u8]) -> Option<OptionForm>
    ensures { result ≡ row_of spec.framed text.now }
{
    row_of(&FRAMED, text)
}

/// The form of an option of a disk-buffer.
#[tactic(auto, unfolding(crate::specs::Tables::disk))]
pub fn disk_form(text: &[u8]) -> Option<Flat>
    ensures { result ≡ row_of spec.disk text.now }
{
    row_of(&DISK, text)
}

#[tactic(auto, unfolding(crate::specs::Tables::global))]
fn global(text: &[u8]) -> Option<Flat>
    ensures { result ≡ row_of spec.global text.now }
{
    row_of(&GLOBAL, text)
}

#[tactic(auto, unfolding(crate::specs::Tables::without_effect))]
fn without_effect(text: &[u8]) -> Option<Flat>
    ensures { result ≡ row_of spec.without_effect text.now }
{
    row_of(&WITHOUT_EFFECT, text)
}

/// The form of a global option.
#[tactic(auto, unfolding(crate::specs::Tables::global_form))]
pub fn global_form(text: &[u8]) -> Option<Flat>
    ensures { result ≡ spec.global_form text.now }
{
    match global(text) {
        Some(form) => Some(form),
        None => without_effect(text),
    }
}

/// The form of an option of the drivers' that has an effect.
#[tactic(auto, unfolding(crate::specs::Tables::own_form))]
fn own_form(table: OptionTable, text: &[u8]) -> Option<OptionForm>
    ensures { result ≡ spec.own_form table text.now }
{
    match table {
        OptionTable::FileSource => source(text),
        OptionTable::NetworkSource => either(listener(text), source(text)),
        OptionTable::FileDestination => either(writer(text), destination(text)),
        OptionTable::NetworkDestination => either(
            framed(text),
            either(sender(text), destination(text)),
        ),
        OptionTable::SyslogDestination => either(sender(text), destination(text)),
    }
}

fn either(form: Option<OptionForm>, other: Option<OptionForm>) -> Option<OptionForm>
    ensures { result ≡ spec.either form other }
{
    match form {
        Some(form) => Some(form),
        None => other,
    }
}

/// The form of an option of a driver.
#[tactic(auto, unfolding(crate::specs::Tables::option_form))]
pub fn option_form(table: OptionTable, text: &[u8]) -> Option<OptionForm>
    ensures { result ≡ spec.option_form table text.now }
{
    match own_form(table, text) {
        Some(form) => Some(form),
        None => match without_effect(text) {
            Some(flat) => Some(OptionForm::Flat(flat)),
            None => None,
        },
    }
}
