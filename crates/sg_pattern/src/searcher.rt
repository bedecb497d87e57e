// A regular expression and what searches for it.
ghost use Rattle.std.specs.Prelude.{◌≡◌, take, map, if◌then◌else◌, is_some, IsSome, IfOk, OnOk};
ghost use Rattle.regex.specs.Bytes.{matcher_pattern, regex_pattern};
ghost use Rattle.regex.specs.Patterns.{find, find_all, span};
ghost use Rattle.sg_pattern.specs.Engines.{IsFitting};

use crate::search::{each_span, first_span};
use regex::bytes::{Matcher, Regex};
use std::alloc::{AllocError, Global};
use std::boxed::Box;

/// A regular expression, which stays for the program's life, and what searches for it with its caches,
/// which is made at the first search.
pub(crate) struct Searcher {
    pub(crate) regex: &'static Regex,
    pub(crate) matcher: Option<Box<Matcher<'static>>>,
    alloc: Global,
}

impl Drop for Searcher {
    fn drop(self) {
        let Searcher {
            regex: _regex,
            matcher: _matcher,
            alloc: _alloc,
        } = self;
    }
}

fn matcher_of(alloc: Global, regex: &'static Regex) -> Result<Box<Matcher<'static>>, AllocError>
    ensures { IfOk result (λ made. matcher_pattern made.value ≡ regex_pattern regex.now) }
{
    Ok(Box::new(alloc, regex.matcher(alloc)?)?)
}

impl Searcher {
    pub(crate) fn new(alloc: Global, regex: &'static Regex) -> Searcher
        ensures regex { result.regex.now ≡ regex.now }
        ensures fits { IsFitting result }
    {
        Searcher {
            regex,
            matcher: None,
            alloc,
        }
    }

    /// One of the same expression, with caches of its own.
    pub(crate) fn share(&self) -> Searcher
        ensures regex { result.regex.now ≡ self.now.regex.now }
        ensures fits { IsFitting result }
    {
        Searcher::new(self.alloc, self.regex)
    }

    // Makes what searches, where it isn't made yet.
    fn ready(&mut self) -> Result<(), AllocError>
        requires { IsFitting self.old }
        ensures made { OnOk result (IsSome self.new.matcher) }
        ensures same { self.new.regex.now ≡ self.old.regex.now }
        ensures fits { IsFitting self.new }
    {
        if self.matcher.is_none() {
            self.matcher = Some(matcher_of(self.alloc, self.regex)?);
        }
        Ok(())
    }

    /// Whether it matches anywhere.
    pub(crate) fn finds(&mut self, bytes: &[u8]) -> Result<bool, AllocError>
        requires { IsFitting self.old }
        ensures value { IfOk result
            (λ found. found ≡ is_some (find (regex_pattern self.old.regex.now) bytes.now 0)) }
        ensures same { self.new.regex.now ≡ self.old.regex.now }
        ensures fits { IsFitting self.new }
    {
        self.ready()?;
        match &mut self.matcher {
            Some(matcher) => Ok(matcher.is_match(bytes)),
            None => Err(AllocError),
        }
    }

    /// The spans of its matches, in the order of `regex`'s iteration, or that of the first.
    pub(crate) fn spans(
        &mut self,
        alloc: Global,
        all: bool,
        bytes: &[u8],
    ) -> Result<Vec<(usize, usize)>, AllocError>
        requires { IsFitting self.old }
        ensures value { IfOk result (λ spans. spans.items ≡ (if all
            then map span (find_all (regex_pattern self.old.regex.now) bytes.now)
            else take 1 (map span (find_all (regex_pattern self.old.regex.now) bytes.now)))) }
        ensures same { self.new.regex.now ≡ self.old.regex.now }
        ensures fits { IsFitting self.new }
    {
        self.ready()?;
        match &mut self.matcher {
            Some(matcher) => spans_by(alloc, matcher, all, bytes),
            None => Err(AllocError),
        }
    }
}

fn spans_by(
    alloc: Global,
    matcher: &mut Matcher<'static>,
    all: bool,
    bytes: &[u8],
) -> Result<Vec<(usize, usize)>, AllocError>
    ensures value { IfOk result (λ spans. spans.items ≡ (if all
        then map span (find_all (matcher_pattern matcher.old) bytes.now)
        else take 1 (map span (find_all (matcher_pattern matcher.old) bytes.now)))) }
    ensures same { matcher_pattern matcher.new ≡ matcher_pattern matcher.old }
{
    if all {
        return each_span(alloc, matcher, bytes);
    }
    first_span(alloc, matcher, bytes)
}
