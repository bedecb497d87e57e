// What single pipes do.
ghost use Rattle.std.specs.Prelude.{◌≡◌, ◌<◌, ◌^◌, true, false, [], ◌∷◌, IfOk, IfSome, OnOk, slice_get};
ghost use Rattle.sg_table.specs.Table.{IsPipeTable};
ghost use Rattle.sg_pipes.specs.Frames.{IsWalkOver, group_of, has_fallback, has_final_or_fallback};
ghost use Rattle.sg_pipes.specs.Pipes.{changed, is_end, is_met, last_driver, only_driver, lets_pass, rewritten_at, start_at, start_of};
ghost use Rattle.sg_pipes.specs.Turns.{Enters, FiltersMessage};

use crate::frame::{Passed, SiblingList};
use sg_msg::Message;
use sg_table::{Branch, Pipe, Test};
use std::alloc::{AllocError, Global};

/// Whether the message passes. Only a filter stops one.
pub(crate) fn passes(pipe: &mut Pipe, message: &Message) -> Result<bool, AllocError>
    ensures value { IfOk result (λ yes. yes ≡ lets_pass pipe.old message.now) }
    ensures stays { pipe.new ≡ pipe.old }
{
    match pipe {
        Pipe::Filter { filter, .. } => filter.holds(message),
        _ => Ok(true),
    }
}

// Whether the message goes on behind a filter that stands there, is stopped by it, or there is none.
fn filter_at(pipes: &mut Vec<Pipe>, at: u32, message: &Message) -> Result<Passed, AllocError>
    requires { IsPipeTable pipes.old.items }
    ensures filters { IfOk result (λ passed. FiltersMessage pipes.old.items at message.now passed) }
    ensures stays { pipes.new.items ≡ pipes.old.items }
{
    let place = at as usize;
    if place >= pipes.len() {
        return Ok(Passed::Arrived);
    }
    match &pipes[place] {
        Pipe::Filter { next, .. } => {
            let next = *next;
            if passes(&mut pipes[place], message)? {
                Ok(Passed::On(next))
            } else {
                Ok(Passed::Stopped)
            }
        }
        _ => Ok(Passed::Arrived),
    }
}

/// Where a list goes on for the message behind the filters that it begins with, None where one of them stops it.
pub(crate) fn enter(
    pipes: &mut Vec<Pipe>,
    start: u32,
    message: &Message,
) -> Result<Option<u32>, AllocError>
    requires { IsPipeTable pipes.old.items }
    ensures enters { IfOk result (λ at. Enters pipes.old.items start message.now at) }
    ensures stays { pipes.new.items ≡ pipes.old.items }
{
    let mut at = start;
    for _ in 0..pipes.len() {
        match filter_at(pipes, at, message)? {
            Passed::On(next) => at = next,
            Passed::Stopped => return Ok(None),
            Passed::Arrived => return Ok(Some(at)),
        }
    }
    Ok(Some(at))
}

// Whether the message meets the condition of a rewrite, if it has one.
fn is_met(pipe: &mut Pipe, message: &Message) -> Result<bool, AllocError>
    ensures value { IfOk result (λ yes. yes ≡ is_met pipe.old message.now) }
    ensures stays { pipe.new ≡ pipe.old }
{
    match pipe {
        Pipe::Rewrite {
            condition: Some(filter),
            ..
        } => filter.holds(message),
        _ => Ok(true),
    }
}

fn apply(alloc: Global, pipe: &mut Pipe, message: &mut Message) -> Result<(), AllocError>
    ensures value { OnOk result (message.new ≡ changed pipe.old message.old) }
    ensures stays { pipe.new ≡ pipe.old }
{
    match pipe {
        Pipe::Rewrite { rewrite, .. } => rewrite.apply(alloc, message)?,
        _ => {}
    }
    Ok(())
}

/// Changes the message. Only a rewrite does, where its condition holds.
pub(crate) fn rewrite(
    alloc: Global,
    pipe: &mut Pipe,
    message: &mut Message,
) -> Result<(), AllocError>
    ensures value { OnOk result (message.new ≡ rewritten_at pipe.old message.old) }
    ensures stays { pipe.new ≡ pipe.old }
{
    if is_met(pipe, message)? {
        apply(alloc, pipe, message)?;
    }
    Ok(())
}

// Whether a list ends there.
fn is_end(pipes: &[Pipe], at: u32) -> bool
    ensures { result ≡ is_end (slice_get pipes.now at) }
{
    match pipes.get(at as usize) {
        Some(Pipe::End) => true,
        _ => false,
    }
}

fn only_driver(drivers: &[u32]) -> Option<u32>
    ensures { result ≡ only_driver drivers.now }
{
    match drivers {
        [driver] => Some(*driver),
        _ => None,
    }
}

/// The driver of a delivery to it alone, with which a list ends, if that stands there.
pub(crate) fn last_driver(pipes: &[Pipe], at: u32) -> Option<u32>
    ensures { result ≡ last_driver pipes.now (slice_get pipes.now at) }
{
    match pipes.get(at as usize) {
        Some(Pipe::Deliver { drivers, next }) => {
            if is_end(pipes, *next) {
                return only_driver(drivers);
            }
            None
        }
        _ => None,
    }
}

/// The sibling at this place of the group.
pub(crate) fn branch_at(
    offered: &[Branch],
    pipes: &[Pipe],
    group: SiblingList,
    index: usize,
) -> Option<Branch>
    ensures is { result ≡ slice_get (group_of offered.now pipes.now group) index }
    ensures small { IfSome result (λ _. index < 2 ^ 63) }
{
    match group {
        SiblingList::Offered => offered.get(index).copied(),
        SiblingList::At(place) => match pipes.get(place as usize) {
            Some(Pipe::Junction { channels, .. }) => channels.get(index).copied(),
            Some(Pipe::Embedded { logs }) => logs.get(index).copied(),
            _ => None,
        },
    }
}

/// The branch that is offered a message alone, if all that it leaves is all that is left.
pub(crate) fn alone(branches: &[Branch]) -> Option<Branch>
    ensures { IfSome result (λ branch. (branches.now ≡ branch ∷ []) × (branch.fallback ≡ false)
        × (branch.drop_unmatched ≡ false)) }
{
    match branches {
        [branch] => {
            if branch.fallback | branch.drop_unmatched {
                return None;
            }
            Some(*branch)
        }
        _ => None,
    }
}

/// Whether it counts for one of them what the others leave.
pub(crate) fn has_final_or_fallback(branches: &[Branch]) -> bool
    ensures { result ≡ has_final_or_fallback branches.now }
{
    branches
        .iter()
        .any(|branch| branch.is_final | branch.fallback)
}

fn is_late(branches: &[Branch]) -> bool
    ensures { result ≡ has_fallback branches.now }
{
    branches.iter().any(|branch| branch.fallback)
}

// Whether a sibling of the group waits for the second round.
fn has_late(offered: &[Branch], pipes: &[Pipe], group: SiblingList) -> bool
    ensures { result ≡ has_fallback (group_of offered.now pipes.now group) }
{
    match group {
        SiblingList::Offered => is_late(offered),
        SiblingList::At(place) => match pipes.get(place as usize) {
            Some(Pipe::Junction { channels, .. }) => is_late(channels),
            Some(Pipe::Embedded { logs }) => is_late(logs),
            _ => false,
        },
    }
}

/// Whether no sibling is tried from this place of a round on.
pub(crate) fn is_over(
    offered: &[Branch],
    pipes: &[Pipe],
    group: SiblingList,
    index: usize,
    late: bool,
) -> bool
    ensures { result ≡ true → IsWalkOver pipes.now offered.now group index late }
{
    match branch_at(offered, pipes, group, index) {
        Some(_) => false,
        None => {
            if late {
                return true;
            }
            !has_late(offered, pipes, group)
        }
    }
}

fn first_of(
    tests: &mut [Test],
    other: Option<u32>,
    message: &Message,
) -> Result<Option<u32>, AllocError>
    ensures value { IfOk result (λ start. start ≡ start_of tests.old other message.now) }
    ensures stays { tests.new ≡ tests.old }
{
    for i in 0..tests.len() {
        let test = &mut tests[i];
        if test.filter.holds(message)? {
            return Ok(Some(test.start));
        }
    }
    Ok(other)
}

/// Where the branch of the first test that holds begins, else the other one.
pub(crate) fn choose(
    pipe: &mut Pipe,
    other: Option<u32>,
    message: &Message,
) -> Result<Option<u32>, AllocError>
    ensures value { IfOk result (λ start. start ≡ start_at pipe.old other message.now) }
    ensures stays { pipe.new ≡ pipe.old }
{
    match pipe {
        Pipe::If { tests, .. } => first_of(tests, other, message),
        _ => Ok(other),
    }
}
