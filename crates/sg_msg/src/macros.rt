// Names that are computed.
ghost use Rattle.std.specs.Prelude.{◌≡◌, false, ◌||◌, ◌++◌, bytes_eq};
ghost use Rattle.std.specs.List.{list_any};
ghost use Rattle.sg_msg.specs.Macros.{is_hard, is_any, is_prefixed_date, date_macros, other_macros};

const DATE_MACROS: [&[u8]; 13] = [
    b"DATE",
    b"FULLDATE",
    b"ISODATE",
    b"STAMP",
    b"UNIXTIME",
    b"YEAR",
    b"MONTH",
    b"DAY",
    b"HOUR",
    b"MIN",
    b"SEC",
    b"MONTH_ABBREV",
    b"TZOFFSET",
];

const OTHER_MACROS: [&[u8]; 12] = [
    b"PRI",
    b"FACILITY_NUM",
    b"LEVEL_NUM",
    b"FACILITY",
    b"LEVEL",
    b"PRIORITY",
    b"SEVERITY",
    b"TAG",
    b"TAGS",
    b"MSGHDR",
    b"SDATA",
    b"_",
];

// What the names of macros begin with.
const FIRST_BYTES: [u8; 13] = *b"DFHILMPRSTUY_";

/// Whether the name is that of a macro, which no pair can have. Names are compared byte for byte.
pub fn is_hard(name: &[u8]) -> bool
    ensures { result ≡ is_hard name.now }
{
    may_be_hard(name) && (is_other_macro(name) || is_stamp_macro(name))
}

// Whether the name begins as a macro's does. Most others fail here.
fn may_be_hard(name: &[u8]) -> bool
    ensures { result ≡ false → is_hard name.now ≡ false }
{
    match name.first() {
        Some(first) => FIRST_BYTES.contains(first),
        None => false,
    }
}

// Whether the name is a date macro's, with a prefix or without one.
fn is_stamp_macro(name: &[u8]) -> bool
    ensures { result ≡ (is_any date_macros name.now || is_prefixed_date name.now) }
{
    is_date_macro(name) || is_prefixed_date_macro(name)
}

fn is_prefixed_date_macro(name: &[u8]) -> bool
    ensures { result ≡ is_prefixed_date name.now }
{
    has_prefix(b"S_", name) || has_prefix(b"R_", name)
}

fn is_other_macro(name: &[u8]) -> bool
    ensures { result ≡ is_any other_macros name.now }
{
    is_listed(&OTHER_MACROS, name)
}

fn is_date_macro(name: &[u8]) -> bool
    ensures { result ≡ is_any date_macros name.now }
{
    is_listed(&DATE_MACROS, name)
}

// Whether the name is a date macro's behind this prefix.
fn has_prefix(prefix: &[u8], name: &[u8]) -> bool
    ensures { result ≡ list_any (λ date. bytes_eq (prefix.now ++ date) name.now) date_macros }
{
    match name.strip_prefix(prefix) {
        Some(rest) => is_date_macro(rest),
        None => false,
    }
}

fn is_listed(names: &[&[u8]], name: &[u8]) -> bool
    ensures { result ≡ list_any (λ listed. bytes_eq listed.now name.now) names.now }
{
    names.iter().any(|listed| *listed == name)
}
