// The texts of a stamp.
ghost use Rattle.std.specs.Prelude.{◌≡◌, ◌≤◌, ◌<◌, ◌++◌, OnOk, OnErr, codes};
ghost use Rattle.sg_time.specs.Stamp.{IsValidStamp};
ghost use Rattle.sg_time.specs.Local.{local_time};
ghost use Rattle.sg_time.specs.Text.{digits as digits_of, fraction_text, iso_stamp_text, bsd_stamp_text};
ghost use Rattle.sg_template.specs.Begins.{BeginsWith};
ghost use Rattle.sg_template.specs.Texts.{date_text, unix_text};

use crate::Env;
use crate::append::append;
use itoa::Buffer;
use sg_macro::DatePart;
use sg_time::{
    Stamp, bsd_text, four_digits, iso_text, month_abbrev, offset_bytes, six_digits, two_digits,
};
use std::alloc::AllocError;

fn append_bsd(stamp: Stamp, digits: u8, out: &mut Vec<u8>) -> Result<(), AllocError>
    requires valid { IsValidStamp stamp }
    requires at_most_six { digits ≤ 6 }
    ensures ok { OnOk result (out.new.items ≡ out.old.items ++ bsd_stamp_text stamp digits) }
    ensures err { OnErr result (BeginsWith out.old.items out.new.items) }
{
    bsd_text(stamp, digits, out)
}

fn append_iso(stamp: Stamp, digits: u8, out: &mut Vec<u8>) -> Result<(), AllocError>
    requires valid { IsValidStamp stamp }
    requires at_most_six { digits ≤ 6 }
    ensures ok { OnOk result (out.new.items ≡ out.old.items ++ iso_stamp_text stamp digits) }
    ensures err { OnErr result (BeginsWith out.old.items out.new.items) }
{
    iso_text(stamp, digits, out)
}

#[tactic(auto, using(crate::proofs::Appending::appending))]
fn append_full_date(stamp: Stamp, digits: u8, out: &mut Vec<u8>) -> Result<(), AllocError>
    requires valid { IsValidStamp stamp }
    requires at_most_six { digits ≤ 6 }
    ensures ok { OnOk result (out.new.items ≡ out.old.items
        ++ (digits_of 4 (local_time stamp).year ++ codes " " ++ bsd_stamp_text stamp digits)) }
    ensures err { OnErr result (BeginsWith out.old.items out.new.items) }
{
    append(&four_digits(stamp.local().year), out)?;
    append(b" ", out)?;
    append_bsd(stamp, digits, out)?;
    Ok(())
}

// A dot and so many digits of a second's fraction, or nothing.
#[tactic(auto, using(crate::proofs::Appending::appending))]
fn append_fraction(microsecond: u32, digits: u8, out: &mut Vec<u8>) -> Result<(), AllocError>
    requires { digits ≤ 6 }
    ensures ok { OnOk result (out.new.items ≡ out.old.items ++ fraction_text digits microsecond) }
    ensures err { OnErr result (BeginsWith out.old.items out.new.items) }
{
    if digits == 0 {
        return Ok(());
    }
    let shown = digits as usize;
    append(b".", out)?;
    append(&six_digits(microsecond)[..shown], out)?;
    Ok(())
}

#[tactic(auto, using(crate::proofs::Appending::appending))]
fn append_unix(at: i64, digits: u8, out: &mut Vec<u8>) -> Result<(), AllocError>
    requires { digits ≤ 6 }
    ensures ok { OnOk result (out.new.items ≡ out.old.items ++ unix_text at digits) }
    ensures err { OnErr result (BeginsWith out.old.items out.new.items) }
{
    let mut buffer = Buffer::new();
    append(buffer.format(at.div_euclid(1_000_000)).as_bytes(), out)?;
    append_fraction(at.rem_euclid(1_000_000) as u32, digits, out)?;
    Ok(())
}

#[tactic(auto, using(crate::proofs::Appending::appending), unfolding(crate::specs::Texts::date_text))]
pub(crate) fn append_date(
    part: DatePart,
    stamp: Stamp,
    env: &Env,
    out: &mut Vec<u8>,
) -> Result<(), AllocError>
    requires { IsValidStamp stamp }
    ensures ok { OnOk result
        (out.new.items ≡ out.old.items ++ date_text part stamp env.now.digits env.now.iso) }
    ensures err { OnErr result (BeginsWith out.old.items out.new.items) }
{
    match part {
        DatePart::Date => append_bsd(stamp, env.digits, out),
        DatePart::FullDate => append_full_date(stamp, env.digits, out),
        DatePart::IsoDate => append_iso(stamp, env.digits, out),
        DatePart::ChosenDate if env.iso => append_iso(stamp, env.digits, out),
        DatePart::ChosenDate => append_bsd(stamp, env.digits, out),
        DatePart::UnixTime => append_unix(stamp.at, env.digits, out),
        DatePart::Year => append(&four_digits(stamp.local().year), out),
        DatePart::Month => append(&two_digits(stamp.local().month), out),
        DatePart::Day => append(&two_digits(stamp.local().day), out),
        DatePart::Hour => append(&two_digits(stamp.local().hour), out),
        DatePart::Minute => append(&two_digits(stamp.local().minute), out),
        DatePart::Second => append(&two_digits(stamp.local().second), out),
        DatePart::MonthAbbrev => append(&month_abbrev(stamp.local().month), out),
        DatePart::Offset => append(&offset_bytes(stamp.offset), out),
    }
}
