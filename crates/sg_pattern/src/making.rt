// Making a regular expression, with no more memory than there is left for it.
ghost use Rattle.std.specs.Prelude.{◌≡◌, ◌≤◌, ◌+◌, ◌*◌, false, true, IfOk, IfErr, IsTrue, IsSomeAnd};
ghost use Rattle.regex.specs.Bytes.{regex_pattern, regex_size};
ghost use Rattle.regex.specs.Views.{builder_config, builder_size_limit, builder_source};
ghost use Rattle.regex.specs.Patterns.{SameCaptures};
ghost use Rattle.sg_pattern.specs.Builds.{MatchesAs};
ghost use Rattle.sg_pattern.specs.Kept.{IsNoneOf, IsNotMade, counted};
ghost use Rattle.sg_pattern.specs.Pattern.{config_of, read_as};

use crate::BuildFault;
use regex::bytes::Regex;
use regex::{Error, RegexBuilder};
use std::alloc::Global;

// The bytes that the tables of an expression may take: at first, and at last.
const LEAST: usize = 2_560;

const LARGEST: usize = 10_485_760;

// The options with which a text is read: with the classes and letters of Unicode or of ASCII.
fn options(text: &str, unicode: bool, ignore_case: bool, limit: usize) -> RegexBuilder<'_>
    ensures source { builder_source result ≡ text.now }
    ensures config { (record (builder_config result) { utf8 = false })
        ≡ config_of unicode ignore_case }
    ensures limit { builder_size_limit result ≡ limit }
{
    RegexBuilder::new(text)
        .case_insensitive(ignore_case)
        .unicode(unicode)
        .size_limit(limit)
}

// The expression of a text, where its tables take no more than so many bytes.
fn within(
    alloc: Global,
    text: &str,
    unicode: bool,
    ignore_case: bool,
    limit: usize,
) -> Result<Regex, BuildFault>
    ensures matches { IfOk result (λ regex.
        IsSomeAnd (read_as unicode ignore_case text.now) (SameCaptures (regex_pattern regex))) }
    ensures small { IfOk result (λ regex. regex_size regex ≤ limit + 24) }
    ensures refused { IfErr result (IsNoneOf (read_as unicode ignore_case text.now)) }
{
    let builder = options(text, unicode, ignore_case, limit);
    match builder.build_bytes(alloc) {
        Ok(regex) => Ok(regex),
        Err(Error::Syntax(_)) => Err(BuildFault::Syntax),
        Err(Error::OutOfMemory) => Err(BuildFault::NoMemory),
        Err(Error::CompiledTooBig) => Err(BuildFault::TooLarge),
        Err(Error::Internal) => Err(BuildFault::TooLarge),
    }
}

// What is counted for an expression that was made within a limit: fourteen times that for its tables, as they are and with
// what is worked out from them, and 32 KiB for its tree and the texts that a search looks for first. That is what was
// measured of classes of Unicode and of large repetitions.
fn bytes_within(limit: usize) -> usize
    requires { limit ≤ LARGEST }
    ensures { result ≡ counted limit }
{
    32_768 + 14 * limit
}

// Whether twice this limit may be tried, where so many bytes are left.
fn may_grow(limit: usize, left: usize) -> bool
    requires { limit ≤ LARGEST }
    ensures { IsTrue result → 2 * limit ≤ LARGEST }
{
    2 * limit <= LARGEST && bytes_within(2 * limit) <= left
}

// The expression of a text so read and the bytes that are counted for it, of those that are left. The limit of its tables
// is raised step by step, so that it is no more than twice what they take.
fn make_as(
    alloc: Global,
    text: &str,
    unicode: bool,
    ignore_case: bool,
    left: usize,
) -> Result<(Regex, usize), BuildFault>
    ensures matches { IfOk result (λ made.
        IsSomeAnd (read_as unicode ignore_case text.now) (SameCaptures (regex_pattern made.0))) }
    ensures small { IfOk result (λ made. regex_size made.0 ≤ made.1) }
    ensures left { IfOk result (λ made. made.1 ≤ left) }
    ensures refused { IfErr result (IsNoneOf (read_as unicode ignore_case text.now)) }
{
    let mut limit = LEAST;
    'limits: loop {
        match within(alloc, text, unicode, ignore_case, limit) {
            Ok(regex) => {
                let bytes = bytes_within(limit);
                if bytes > left {
                    return Err(BuildFault::TooLarge);
                }
                return Ok((regex, bytes));
            }
            Err(BuildFault::Syntax) => return Err(BuildFault::Syntax),
            Err(BuildFault::NoMemory) => return Err(BuildFault::NoMemory),
            Err(BuildFault::TooLarge) => {
                if !may_grow(limit, left) {
                    return Err(BuildFault::TooLarge);
                }
                limit *= 2;
            }
        }
    }
}

/// The expression of a text and the bytes that are counted for it, of those that are left: with the classes and letters
/// of ASCII, which take much less memory, or of Unicode where it is none with those, as `[é]`.
pub(crate) fn make(
    alloc: Global,
    text: &str,
    ignore_case: bool,
    left: usize,
) -> Result<(Regex, usize), BuildFault>
    ensures matches { IfOk result
        (λ made. MatchesAs ignore_case text.now (regex_pattern made.0)) }
    ensures small { IfOk result (λ made. regex_size made.0 ≤ made.1) }
    ensures left { IfOk result (λ made. made.1 ≤ left) }
    ensures refused { IfErr result (IsNotMade ignore_case text.now) }
{
    match make_as(alloc, text, false, ignore_case, left) {
        Ok(made) => Ok(made),
        Err(BuildFault::NoMemory) => Err(BuildFault::NoMemory),
        Err(BuildFault::TooLarge) => Err(BuildFault::TooLarge),
        Err(BuildFault::Syntax) => make_as(alloc, text, true, ignore_case, left),
    }
}
