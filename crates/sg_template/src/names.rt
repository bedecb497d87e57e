// The names of facilities and severities.
ghost use Rattle.std.specs.Prelude.{◌≡◌, ◌<◌, [], length, map};
ghost use Rattle.std.specs.List.{slice_index_or};
ghost use Rattle.sg_template.specs.Names.{facility_name, severity_name};

const FACILITIES: [&[u8]; 24] = [
    b"kern",
    b"user",
    b"mail",
    b"daemon",
    b"auth",
    b"syslog",
    b"lpr",
    b"news",
    b"uucp",
    b"cron",
    b"authpriv",
    b"ftp",
    b"ntp",
    b"security",
    b"console",
    b"solaris-cron",
    b"local0",
    b"local1",
    b"local2",
    b"local3",
    b"local4",
    b"local5",
    b"local6",
    b"local7",
];

const SEVERITIES: [&[u8]; 8] = [
    b"emerg", b"alert", b"crit", b"err", b"warning", b"notice", b"info", b"debug",
];

/// The name of a facility, 0 to 23.
pub fn facility_name(facility: u8) -> &'static [u8]
    requires { facility < 24 }
    ensures { result.now ≡ facility_name facility }
{
    name_at(&FACILITIES, facility)
}

/// The name of a severity, 0 to 7.
pub fn severity_name(severity: u8) -> &'static [u8]
    requires { severity < 8 }
    ensures { result.now ≡ severity_name severity }
{
    name_at(&SEVERITIES, severity)
}

fn name_at(names: &[&'static [u8]], place: u8) -> &'static [u8]
    requires { place < length names.now }
    ensures { result.now ≡ slice_index_or (map (λ name. name.now) names.now) place [] }
{
    names[place as usize]
}
