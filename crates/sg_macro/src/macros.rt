// The macros of templates, by name.
ghost use Rattle.std.specs.Prelude.{◌≡◌, map};
ghost use Rattle.sg_macro.specs.Macros.{macro_of, pair_name, row_of};

use DatePart::*;
use Macro::OfStamp;
use StampKind::{Received, Sent};

/// Which stamp of a message.
#[derive(Clone, Copy, Debug, PartialEq, Eq, Drop)]
pub enum StampKind {
    /// The message's own.
    Sent,
    /// That of its arrival.
    Received,
}

/// A part of a stamp, or a form of it.
#[derive(Clone, Copy, Debug, PartialEq, Eq, Drop)]
pub enum DatePart {
    /// As RFC 3164 writes it.
    Date,
    /// The same, behind its year.
    FullDate,
    /// ISO 8601, as RFC 3339 profiles it.
    IsoDate,
    /// One of these two, by the option `ts-format`.
    ChosenDate,
    /// Seconds since 1970-01-01T00:00:00Z, rounded down.
    UnixTime,
    Year,
    Month,
    Day,
    Hour,
    Minute,
    Second,
    /// `Jan` to `Dec`.
    MonthAbbrev,
    /// The offset from UTC.
    Offset,
}

/// A text that is computed from a message.
#[derive(Clone, Copy, Debug, PartialEq, Eq, Drop)]
pub enum Macro {
    Pri,
    FacilityNumber,
    SeverityNumber,
    Facility,
    Severity,
    /// PRI in hexadecimal.
    PriHex,
    Tags,
    /// `program[pid]: `.
    Header,
    /// STRUCTURED-DATA of RFC 5424.
    Sdata,
    /// What a field held before.
    OldValue,
    OfStamp(StampKind, DatePart),
}

const MACROS: [(&[u8], Macro); 51] = [
    (b"PRI", Macro::Pri),
    (b"FACILITY_NUM", Macro::FacilityNumber),
    (b"LEVEL_NUM", Macro::SeverityNumber),
    (b"FACILITY", Macro::Facility),
    (b"LEVEL", Macro::Severity),
    (b"PRIORITY", Macro::Severity),
    (b"SEVERITY", Macro::Severity),
    (b"TAG", Macro::PriHex),
    (b"TAGS", Macro::Tags),
    (b"MSGHDR", Macro::Header),
    (b"SDATA", Macro::Sdata),
    (b"_", Macro::OldValue),
    (b"DATE", OfStamp(Sent, Date)),
    (b"FULLDATE", OfStamp(Sent, FullDate)),
    (b"ISODATE", OfStamp(Sent, IsoDate)),
    (b"STAMP", OfStamp(Sent, ChosenDate)),
    (b"UNIXTIME", OfStamp(Sent, UnixTime)),
    (b"YEAR", OfStamp(Sent, Year)),
    (b"MONTH", OfStamp(Sent, Month)),
    (b"DAY", OfStamp(Sent, Day)),
    (b"HOUR", OfStamp(Sent, Hour)),
    (b"MIN", OfStamp(Sent, Minute)),
    (b"SEC", OfStamp(Sent, Second)),
    (b"MONTH_ABBREV", OfStamp(Sent, MonthAbbrev)),
    (b"TZOFFSET", OfStamp(Sent, Offset)),
    (b"S_DATE", OfStamp(Sent, Date)),
    (b"S_FULLDATE", OfStamp(Sent, FullDate)),
    (b"S_ISODATE", OfStamp(Sent, IsoDate)),
    (b"S_STAMP", OfStamp(Sent, ChosenDate)),
    (b"S_UNIXTIME", OfStamp(Sent, UnixTime)),
    (b"S_YEAR", OfStamp(Sent, Year)),
    (b"S_MONTH", OfStamp(Sent, Month)),
    (b"S_DAY", OfStamp(Sent, Day)),
    (b"S_HOUR", OfStamp(Sent, Hour)),
    (b"S_MIN", OfStamp(Sent, Minute)),
    (b"S_SEC", OfStamp(Sent, Second)),
    (b"S_MONTH_ABBREV", OfStamp(Sent, MonthAbbrev)),
    (b"S_TZOFFSET", OfStamp(Sent, Offset)),
    (b"R_DATE", OfStamp(Received, Date)),
    (b"R_FULLDATE", OfStamp(Received, FullDate)),
    (b"R_ISODATE", OfStamp(Received, IsoDate)),
    (b"R_STAMP", OfStamp(Received, ChosenDate)),
    (b"R_UNIXTIME", OfStamp(Received, UnixTime)),
    (b"R_YEAR", OfStamp(Received, Year)),
    (b"R_MONTH", OfStamp(Received, Month)),
    (b"R_DAY", OfStamp(Received, Day)),
    (b"R_HOUR", OfStamp(Received, Hour)),
    (b"R_MIN", OfStamp(Received, Minute)),
    (b"R_SEC", OfStamp(Received, Second)),
    (b"R_MONTH_ABBREV", OfStamp(Received, MonthAbbrev)),
    (b"R_TZOFFSET", OfStamp(Received, Offset)),
];

/// The macro of that name. Names are compared byte for byte.
pub fn macro_of(name: &[u8]) -> Option<Macro>
    ensures { result ≡ macro_of name.now }
{
    row_of(&MACROS, name)
}

fn row_of(rows: &[(&[u8], Macro)], name: &[u8]) -> Option<Macro>
    ensures { result ≡ row_of name.now (map (λ row. (row.0.now, row.1)) rows.now) }
{
    for row in rows {
        if row.0 == name {
            return Some(row.1);
        }
    }
    None
}

/// The name of the pair that a name means: MESSAGE for MSG and MSGONLY, HOST for FULLHOST, and any
/// other name for itself.
#[tactic(auto, unfolding(crate::specs::Macros::pair_name))]
pub fn pair_name(name: &[u8]) -> &[u8]
    ensures { result.now ≡ pair_name name.now }
{
    if name == b"MSG".as_slice() {
        return b"MESSAGE";
    }
    if name == b"MSGONLY".as_slice() {
        return b"MESSAGE";
    }
    if name == b"FULLHOST".as_slice() {
        return b"HOST";
    }
    name
}
