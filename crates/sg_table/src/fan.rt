// What becomes of one message.
ghost use Rattle.std.specs.Prelude.{◌≡◌, ◌+◌, ◌*◌, max, List, map, slice_index_or};
ghost use Rattle.sg_tree.specs.Walk.{Choice as AChoice, Siblings as SomeSiblings, Steps as SomeSteps, none_left};
ghost use Rattle.sg_tree.specs.Bounds.{reach, reach_all, reach_each, Reach as AReach};
ghost use Rattle.sg_table.specs.Fans.{cut, cut_reach, fan};
ghost use Rattle.sg_table.specs.Table.{branches_at, choice_of, other_at, place, siblings_of, steps_of, tests_at};

use crate::{Branch, Pipe, Test};

/// What may become of one message at a place of the table and behind it. Each number is at most 1,025,
/// which stands for all greater ones too.
#[derive(Clone, Copy, PartialEq, Eq, Drop)]
pub(crate) struct Fan {
    /// The offers made.
    pub(crate) offers: u32,
    /// The messages that come out.
    pub(crate) out: u32,
    /// The most messages at one place.
    pub(crate) most: u32,
}

pub(crate) fn sum(a: u32, b: u32) -> u32
    ensures { result ≡ cut (a + b) }
{
    a.saturating_add(b).min(1025)
}

fn product(a: u32, b: u32) -> u32
    ensures { result ≡ cut (a * b) }
{
    a.saturating_mul(b).min(1025)
}

// What becomes of a message that comes out at once.
fn leaving() -> Fan
    ensures { result ≡ fan none_left }
{
    Fan {
        offers: 0,
        out: 1,
        most: 1,
    }
}

// What becomes of it at a place of the table; behind the table's end it comes out.
pub(crate) fn fan_at(fans: &[Fan], at: u32) -> Fan
    ensures { (steps : List SomeSteps) → fans.now ≡ map fan steps → result ≡ fan (place steps at) }
{
    match fans.get(at as usize) {
        Some(fan) => *fan,
        None => leaving(),
    }
}

fn beside(a: Fan, b: Fan) -> Fan
    ensures { result ≡ record {
      offers = cut (a.offers + b.offers);
      out = cut (a.out + b.out);
      most = max a.most b.most;
    } }
{
    Fan {
        offers: sum(a.offers, b.offers),
        out: sum(a.out, b.out),
        most: a.most.max(b.most),
    }
}

// The greatest of both, each number by itself.
fn greatest(a: Fan, b: Fan) -> Fan
    ensures { result ≡ record {
      offers = max a.offers b.offers;
      out = max a.out b.out;
      most = max a.most b.most;
    } }
{
    Fan {
        offers: a.offers.max(b.offers),
        out: a.out.max(b.out),
        most: a.most.max(b.most),
    }
}

// What comes out walks the rest.
fn onward(first: Fan, rest: Fan) -> Fan
    ensures { result ≡ record {
      offers = cut (first.offers + cut (first.out * rest.offers));
      out = cut (first.out * rest.out);
      most = max 1 (max first.most (cut (first.out * rest.most)));
    } }
{
    Fan {
        offers: sum(first.offers, product(first.out, rest.offers)),
        out: product(first.out, rest.out),
        most: 1u32.max(first.most.max(product(first.out, rest.most))),
    }
}

fn branches_fan(fans: &[Fan], branches: &[Branch]) -> Fan
    ensures { (steps : List SomeSteps) → fans.now ≡ map fan steps
        → result ≡ cut_reach (reach_all (siblings_of (branches_at (place steps) branches.now)) 1) }
{
    let mut all = Fan {
        offers: 0,
        out: 0,
        most: 0,
    };
    for i in (0..branches.len()).rev() {
        all = beside(fan_at(fans, branches[i].start), all);
    }
    all
}

fn other_fan(fans: &[Fan], other: Option<u32>) -> Fan
    ensures { (steps : List SomeSteps) → fans.now ≡ map fan steps
        → result ≡ fan (other_at (place steps) other) }
{
    match other {
        Some(at) => fan_at(fans, at),
        None => leaving(),
    }
}

fn tests_fan(fans: &[Fan], tests: &[Test], other: Option<u32>) -> Fan
    ensures { (steps : List SomeSteps) → fans.now ≡ map fan steps
        → result ≡ cut_reach (
        reach_each (choice_of (tests_at (place steps) tests.now) (other_at (place steps) other))
        1) }
{
    let mut all = other_fan(fans, other);
    for i in (0..tests.len()).rev() {
        all = greatest(fan_at(fans, tests[i].start), all);
    }
    all
}

/// What becomes of a message that reaches this pipe, where these are what becomes of it at those in
/// front.
pub(crate) fn fan_of(fans: &[Fan], pipe: &Pipe) -> Fan
    ensures { (steps : List SomeSteps) → fans.now ≡ map fan steps
        → result ≡ fan (steps_of (place steps) pipe.now) }
{
    match pipe {
        Pipe::End => leaving(),
        Pipe::Filter { next, .. } => fan_at(fans, *next),
        Pipe::Rewrite { next, .. } => fan_at(fans, *next),
        Pipe::Parse { next, .. } => fan_at(fans, *next),
        Pipe::Deliver { drivers, next } => {
            let rest = fan_at(fans, *next);
            Fan {
                offers: sum(drivers.len().min(1025) as u32, rest.offers),
                out: rest.out,
                most: rest.most,
            }
        }
        Pipe::Junction { channels, next } => {
            onward(branches_fan(fans, channels), fan_at(fans, *next))
        }
        Pipe::If { tests, other, next } => {
            onward(tests_fan(fans, tests, *other), fan_at(fans, *next))
        }
        Pipe::Embedded { logs } => {
            let all = branches_fan(fans, logs);
            Fan {
                offers: all.offers,
                out: 1,
                most: 1u32.max(all.most),
            }
        }
    }
}
