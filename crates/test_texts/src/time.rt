// Examples of stamps and their texts.
ghost use Rattle.std.specs.Prelude.{◌≤◌, IfSome};
ghost use Rattle.sg_time.specs.Stamp.{IsValidStamp};

use sg_time::{
    Stamp, bsd_text, four_digits, iso_text, month_abbrev, offset_bytes, read_bsd, read_iso,
    six_digits, two_digits,
};
use std::alloc::{AllocError, Global};
use std::test::Fail;

// Moments with their offsets, and what GNU date prints of them.
const STAMPS: &str = "\
0 0 1970-01-01T00:00:00.000000+00:00 Jan  1 00:00:00
-1 0 1969-12-31T23:59:59.999999+00:00 Dec 31 23:59:59
-1000000 -60 1969-12-31T22:59:59.000000-01:00 Dec 31 22:59:59
1 60 1970-01-01T01:00:00.000001+01:00 Jan  1 01:00:00
1065910455003000 0 2003-10-11T22:14:15.003000+00:00 Oct 11 22:14:15
1150210680000000 60 2006-06-13T15:58:00.000000+01:00 Jun 13 15:58:00
482196050520000 0 1985-04-12T23:20:50.520000+00:00 Apr 12 23:20:50
851042397000000 -480 1996-12-19T16:39:57.000000-08:00 Dec 19 16:39:57
1061727255000003 -420 2003-08-24T05:14:15.000003-07:00 Aug 24 05:14:15
-1041337172130000 20 1937-01-01T12:00:27.870000+00:20 Jan  1 12:00:27
951782400000000 0 2000-02-29T00:00:00.000000+00:00 Feb 29 00:00:00
951782399999999 0 2000-02-28T23:59:59.999999+00:00 Feb 28 23:59:59
951868800000000 0 2000-03-01T00:00:00.000000+00:00 Mar  1 00:00:00
-2203891201000000 0 1900-02-28T23:59:59.000000+00:00 Feb 28 23:59:59
-2203891200000000 0 1900-03-01T00:00:00.000000+00:00 Mar  1 00:00:00
4107542399500000 330 2100-03-01T05:29:59.500000+05:30 Mar  1 05:29:59
1709210096123456 0 2024-02-29T12:34:56.123456+00:00 Feb 29 12:34:56
1709249400000000 60 2024-03-01T00:30:00.000000+01:00 Mar  1 00:30:00
1709163000000000 60 2024-02-29T00:30:00.000000+01:00 Feb 29 00:30:00
1709251800000000 -30 2024-02-29T23:40:00.000000-00:30 Feb 29 23:40:00
1677628799000000 1 2023-03-01T00:00:59.000000+00:01 Mar  1 00:00:59
1078079460000000 345 2004-03-01T00:16:00.000000+05:45 Mar  1 00:16:00
1704067199999999 0 2023-12-31T23:59:59.999999+00:00 Dec 31 23:59:59
1704067200000000 0 2024-01-01T00:00:00.000000+00:00 Jan  1 00:00:00
1704067199000000 60 2024-01-01T00:59:59.000000+01:00 Jan  1 00:59:59
1704067200000000 -60 2023-12-31T23:00:00.000000-01:00 Dec 31 23:00:00
946684799999999 0 1999-12-31T23:59:59.999999+00:00 Dec 31 23:59:59
946683000000000 840 2000-01-01T13:30:00.000000+14:00 Jan  1 13:30:00
946684800000000 -720 1999-12-31T12:00:00.000000-12:00 Dec 31 12:00:00
1000000000000000 0 2001-09-09T01:46:40.000000+00:00 Sep  9 01:46:40
2147483647000000 0 2038-01-19T03:14:07.000000+00:00 Jan 19 03:14:07
2147483648000000 0 2038-01-19T03:14:08.000000+00:00 Jan 19 03:14:08
-2147483649000000 0 1901-12-13T20:45:51.000000+00:00 Dec 13 20:45:51
1795733820987654 -210 2026-11-26T19:27:00.987654-03:30 Nov 26 19:27:00
1483228799100000 0 2016-12-31T23:59:59.100000+00:00 Dec 31 23:59:59
1341133503050000 765 2012-07-01T21:50:03.050000+12:45 Jul  1 21:50:03
-12219292800000000 0 1582-10-15T00:00:00.000000+00:00 Oct 15 00:00:00
-11670976371910000 0 1600-02-29T06:07:08.090000+00:00 Feb 29 06:07:08
-62135596800000000 0 0001-01-01T00:00:00.000000+00:00 Jan  1 00:00:00
-62035853970000000 0 0004-02-29T10:20:30.000000+00:00 Feb 29 10:20:30
253370764799999999 0 9998-12-31T23:59:59.999999+00:00 Dec 31 23:59:59
13574638800000000 1439 2400-03-01T20:59:00.000000+23:59 Mar  1 20:59:00
1557360062000999 -1439 2019-05-08T00:02:02.000999-23:59 May  8 00:02:02
1667714399999000 -300 2022-11-06T00:59:59.999000-05:00 Nov  6 00:59:59";

// What the other rows show. fraction: a stamp, a number of digits, and the ISO and BSD texts with so
// many digits of the fraction. year: the moment of receipt, the stamp that was received, and its text.
// no-iso, no-bsd: what has no ISO stamp at its front, and no BSD stamp that was received in November
// 2023. parts: a stamp, and the parts of its texts.
const ROWS: &str = "\
fraction 2003-10-11T22:14:15.003Z 3 2003-10-11T22:14:15.003+00:00 Oct 11 22:14:15.003
fraction 2003-10-11T22:14:15.003Z 0 2003-10-11T22:14:15+00:00 Oct 11 22:14:15
fraction 2023-12-31T23:59:59.999999Z 1 2023-12-31T23:59:59.9+00:00 Dec 31 23:59:59.9
fraction 2006-06-01T15:58:00+01:00 2 2006-06-01T15:58:00.00+01:00 Jun  1 15:58:00.00
fraction 2006-06-01T15:58:00.5-00:00 6 2006-06-01T15:58:00.500000+00:00 Jun  1 15:58:00.500000
year 2024-01-01T00:00:00Z 2023-12-31T23:59:59+00:00 Dec 31 23:59:59
year 2023-12-31T23:59:59Z 2024-01-01T00:00:00+00:00 Jan  1 00:00:00
year 2023-12-31T23:59:59Z 2024-01-01T00:00:00+00:00 Jan 01 00:00:00
year 2024-01-01T00:00:00Z 2024-11-30T00:00:00+00:00 Nov 30 00:00:00
year 2024-12-31T23:59:59Z 2024-02-29T12:00:00+00:00 Feb 29 12:00:00
year 2023-12-31T23:30:00-01:00 2023-12-31T23:00:00-01:00 Dec 31 23:00:00
no-iso 2006-06-13
no-iso 2006-06-13T15:58:60Z
no-iso 2006-06-13T15:60:00Z
no-iso 2006-06-13T24:00:00Z
no-iso 2006-06-13t15:58:00Z
no-iso 2006-06-13T15:58:00z
no-iso 2006-06-13 15:58:00Z
no-iso 2006-06-13T15:58:00
no-iso 2006-06-13T15:58:00.Z
no-iso 2006-06-13T15:58:00.1234567Z
no-iso 2006-06-13T15:58:00,5Z
no-iso 2006-06-13T15:58:00+24:00
no-iso 2006-06-13T15:58:00+01:60
no-iso 2006-06-13T15:58:00+0100
no-iso 2006-06-13T15:58:00+01
no-iso 2006-6-13T15:58:00Z
no-iso 2006-02-29T15:58:00Z
no-iso 1900-02-29T15:58:00Z
no-iso 2006-13-01T15:58:00Z
no-iso 2006-00-01T15:58:00Z
no-iso 2006-06-00T15:58:00Z
no-iso 0000-06-13T15:58:00Z
no-iso 9999-06-13T15:58:00Z
no-bsd Feb 30 00:00:00
no-bsd Feb 29 00:00:00
no-bsd feb  5 00:00:00
no-bsd Feb 5 00:00:00
no-bsd Feb  0 00:00:00
no-bsd Feb 00 00:00:00
no-bsd Feb  5  00:00:00
no-bsd Feb  5 24:00:00
no-bsd Feb  5 00:00:60
no-bsd Feb  5 00:00
no-bsd Feb\t 5 00:00:00
parts 2023-11-14T18:43:20.123456-03:30 18 2023 Nov 123456 -03:30";

/// A row's stamp, and what stands behind the numbers.
pub(crate) fn read_row(row: &str) -> Result<(Stamp, &str), Fail> {
    let (at, rest) = row.split_once(' ').ok_or("no offset")?;
    let (offset, shown) = rest.split_once(' ').ok_or("no text")?;
    let stamp = Stamp {
        at: at.parse::<i64>()?,
        offset: offset.parse::<i16>()?,
    };
    Ok((stamp, shown))
}

// Whether these texts are read as that stamp, the second one without its fraction.
fn are_read(stamp: Stamp, iso: &str, bsd: &str) -> bool
    requires { IsValidStamp stamp }
{
    if read_iso(iso.as_bytes()) != Some((stamp, 32)) {
        return false;
    }
    match read_bsd(bsd.as_bytes(), stamp) {
        Some((read, len)) => { read.at / 1_000_000 == stamp.at.div_euclid(1_000_000) && len == 15 }
        None => false,
    }
}

// The texts of a stamp with so many digits of its fraction, and a space between them.
fn texts(alloc: Global, stamp: Stamp, iso_digits: u8, bsd_digits: u8) -> Result<Vec<u8>, AllocError>
    requires stamp { IsValidStamp stamp }
    requires iso { iso_digits ≤ 6 }
    requires bsd { bsd_digits ≤ 6 }
{
    let mut out = Vec::new(alloc);
    iso_text(stamp, iso_digits, &mut out)?;
    out.push(b' ')?;
    bsd_text(stamp, bsd_digits, &mut out)?;
    Ok(out)
}

// Whether a row's stamp has its texts, and is read from each of them.
fn is_printed(alloc: Global, row: &str) -> Result<bool, Fail> {
    let (stamp, shown) = read_row(row)?;
    let (iso, bsd) = shown.split_once(' ').ok_or("no text")?;
    if !stamp.is_valid() || !are_read(stamp, iso, bsd) {
        return Ok(false);
    }
    Ok(texts(alloc, stamp, 6, 0)?.as_slice() == shown.as_bytes())
}

#[test]
fn stamps_as_gnu_date_prints_them(rt: HostRuntime) -> Result<(), Fail> {
    for row in STAMPS.lines() {
        assert!(rt; is_printed(rt.alloc(), row)?, "{row}");
    }
    Ok(())
}

// The stamp that the whole text is.
fn whole(text: &str) -> Option<Stamp>
    ensures { IfSome result (λ stamp. IsValidStamp stamp) }
{
    let (stamp, len) = read_iso(text.as_bytes())?;
    if len != text.len() {
        return None;
    }
    Some(stamp)
}

// Whether the texts of a stamp with so many digits are these.
fn has_texts(alloc: Global, row: &str) -> Result<bool, Fail> {
    let (text, rest) = row.split_once(' ').ok_or("no digits")?;
    let (digits, expected) = rest.split_once(' ').ok_or("no text")?;
    let digits = digits.parse::<u8>()?;
    let Some(stamp) = whole(text) else {
        return Ok(false);
    };
    if digits > 6 {
        return Ok(false);
    }
    Ok(texts(alloc, stamp, digits, digits)?.as_slice() == expected.as_bytes())
}

// Whether the text that was received then is that of this stamp.
fn has_year(row: &str) -> Result<bool, Fail> {
    let (received, rest) = row.split_once(' ').ok_or("no stamp")?;
    let (expected, text) = rest.split_once(' ').ok_or("no text")?;
    let (Some(received), Some(expected)) = (whole(received), whole(expected)) else {
        return Ok(false);
    };
    Ok(read_bsd(text.as_bytes(), received) == Some((expected, 15)))
}

// Whether no BSD stamp stands at the text's front.
fn has_no_bsd(text: &str) -> bool {
    let received = Stamp {
        at: 1_700_000_000_123_456,
        offset: -210,
    };
    received.is_valid() && read_bsd(text.as_bytes(), received).is_none()
}

// Appends a space and these bytes.
fn append(bytes: &[u8], out: &mut Vec<u8>) -> Result<(), AllocError> {
    out.push(b' ')?;
    out.extend_from_slice(bytes)?;
    Ok(())
}

// The parts of a stamp's texts, with a space between them.
fn parts(alloc: Global, stamp: Stamp) -> Result<Vec<u8>, AllocError>
    requires { IsValidStamp stamp }
{
    let local = stamp.local();
    let mut out = Vec::from_array(alloc, two_digits(local.hour))?;
    append(&four_digits(local.year), &mut out)?;
    append(&month_abbrev(local.month), &mut out)?;
    append(&six_digits(local.microsecond), &mut out)?;
    append(&offset_bytes(stamp.offset), &mut out)?;
    Ok(out)
}

// Whether the parts of a stamp's texts are these.
fn has_parts(alloc: Global, row: &str) -> Result<bool, Fail> {
    let (text, expected) = row.split_once(' ').ok_or("no parts")?;
    let Some(stamp) = whole(text) else {
        return Ok(false);
    };
    Ok(parts(alloc, stamp)?.as_slice() == expected.as_bytes())
}

// Whether what a row shows holds.
fn holds(alloc: Global, row: &str) -> Result<bool, Fail> {
    match row.split_once(' ') {
        Some(("fraction", rest)) => has_texts(alloc, rest),
        Some(("year", rest)) => has_year(rest),
        Some(("no-iso", rest)) => Ok(read_iso(rest.as_bytes()).is_none()),
        Some(("no-bsd", rest)) => Ok(has_no_bsd(rest)),
        Some(("parts", rest)) => has_parts(alloc, rest),
        _ => Err("what does the row show?".into()),
    }
}

#[test]
fn fractions_years_and_refusals(rt: HostRuntime) -> Result<(), Fail> {
    for row in ROWS.lines() {
        assert!(rt; holds(rt.alloc(), row)?, "{row}");
    }
    Ok(())
}
