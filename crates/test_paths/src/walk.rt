// The walk of a message along log paths, as it is defined. It follows a statement's junctions one inside
// the other.
ghost use Rattle.std.specs.Prelude.{◌≡◌, ◌≤◌, ◌||◌, [], ◌∷◌, ◌++◌, length, drop, IfOk, OnOk};
ghost use Rattle.sg_tree.specs.Walk.{walk, round, chosen, branches, then_each, counted};
ghost use Rattle.sg_tree.specs.Plain.{steps_view, siblings_view, choice_view, own_steps, marks};
ghost use Rattle.test_paths.specs.Gives.{GivesWalked};

use crate::applied::{holds, rewrite};
use crate::gone::RoutedMessages;
use sg_filter::Expr;
use sg_msg::{Message, Offer};
use sg_pattern::Builder;
use sg_tree::{Element, Path, PathRefusal, deliver};
use std::alloc::{AllocError, Global};

fn push_message(out: &mut Vec<Message>, message: Message) -> Result<(), AllocError>
    ensures { OnOk result (out.new.items ≡ out.old.items ++ message ∷ []) }
{
    out.push(message)?;
    Ok(())
}

fn elements_from(elements: &[Element], at: usize) -> &[Element]
    requires { at ≤ length elements.now }
    ensures { result.now ≡ drop at elements.now }
{
    &elements[at..]
}

/// Walks the elements, and behind them the embedded statements.
#[cycle(walk)]
fn walk<B: Builder>(
    alloc: Global,
    builder: &mut B,
    named: &[Expr],
    elements: &[Element],
    embedded: &[Path],
    message: Message,
    flow: bool,
    offers: &mut Vec<Offer>,
) -> Result<RoutedMessages, PathRefusal>
    ensures { IfOk result (λ gone. GivesWalked offers.old.items offers.new.items gone
        (walk (steps_view named.now elements.now embedded.now) message flow)) }
{
    let mut message = message;
    for at in 0..elements.len() {
        match &elements[at] {
            Element::Filter(expr) => {
                if !holds(alloc, builder, expr, named, &message)? {
                    return Ok(RoutedMessages {
                        out: Vec::new(alloc),
                        processed: false,
                    });
                }
            }
            Element::Rewrite(rule) => rewrite(alloc, builder, rule, named, &mut message)?,
            Element::Parse(rule) => {
                let taken = rule.apply(alloc, &mut message)?;
                if !taken {
                    return Ok(RoutedMessages {
                        out: Vec::new(alloc),
                        processed: false,
                    });
                }
            }
            Element::Deliver(drivers) => deliver(drivers, &message, flow, offers)?,
            Element::Junction(channels) => {
                return walk_junction(
                    alloc,
                    builder,
                    named,
                    channels,
                    elements_from(elements, at + 1),
                    embedded,
                    &message,
                    flow,
                    offers,
                );
            }
            Element::If {
                branches: tests,
                other,
            } => {
                return walk_if(
                    alloc,
                    builder,
                    named,
                    tests,
                    other,
                    elements_from(elements, at + 1),
                    embedded,
                    message,
                    flow,
                    offers,
                );
            }
        }
    }
    branches(alloc, builder, named, embedded, &message, flow, offers)?;
    let mut out = Vec::new(alloc);
    push_message(&mut out, message)?;
    Ok(RoutedMessages {
        out,
        processed: true,
    })
}

/// Walks a junction, and the rest behind it.
#[cycle(walk)]
fn walk_junction<B: Builder>(
    alloc: Global,
    builder: &mut B,
    named: &[Expr],
    channels: &[Path],
    elements: &[Element],
    embedded: &[Path],
    message: &Message,
    flow: bool,
    offers: &mut Vec<Offer>,
) -> Result<RoutedMessages, PathRefusal>
    ensures { IfOk result (λ gone. GivesWalked offers.old.items offers.new.items gone
        (then_each (branches (siblings_view named.now channels.now) message.now flow)
        (λ n. walk (steps_view named.now elements.now embedded.now) n flow))) }
{
    let first = branches(alloc, builder, named, channels, message, flow, offers)?;
    rest(
        alloc, builder, named, first, elements, embedded, flow, offers,
    )
}

/// Walks a choice, and the rest behind it.
#[cycle(walk)]
fn walk_if<B: Builder>(
    alloc: Global,
    builder: &mut B,
    named: &[Expr],
    tests: &[(Expr, Vec<Element>)],
    other: &Option<Vec<Element>>,
    elements: &[Element],
    embedded: &[Path],
    message: Message,
    flow: bool,
    offers: &mut Vec<Offer>,
) -> Result<RoutedMessages, PathRefusal>
    ensures { IfOk result (λ gone. GivesWalked offers.old.items offers.new.items gone
        (then_each (chosen (choice_view named.now tests.now other.now) message flow)
        (λ n. walk (steps_view named.now elements.now embedded.now) n flow))) }
{
    let first = choose(alloc, builder, named, tests, other, message, flow, offers)?;
    rest(
        alloc, builder, named, first, elements, embedded, flow, offers,
    )
}

/// Walks the rest over each message that came out.
#[cycle(walk)]
fn rest<B: Builder>(
    alloc: Global,
    builder: &mut B,
    named: &[Expr],
    first: RoutedMessages,
    elements: &[Element],
    embedded: &[Path],
    flow: bool,
    offers: &mut Vec<Offer>,
) -> Result<RoutedMessages, PathRefusal>
    ensures { IfOk result (λ gone. GivesWalked offers.old.items offers.new.items gone
        (then_each (record { deliveries = []; out = first.out.items; processed = first.processed })
        (λ n. walk (steps_view named.now elements.now embedded.now) n flow))) }
{
    let mut gone = RoutedMessages {
        out: Vec::new(alloc),
        processed: false,
    };
    for message in &first.out {
        let next = walk(
            alloc,
            builder,
            named,
            elements,
            embedded,
            message.share()?,
            flow,
            offers,
        )?;
        gone.join(next)?;
    }
    gone.processed = first.processed && gone.processed;
    Ok(gone)
}

#[cycle(walk)]
fn branches<B: Builder>(
    alloc: Global,
    builder: &mut B,
    named: &[Expr],
    siblings: &[Path],
    message: &Message,
    flow: bool,
    offers: &mut Vec<Offer>,
) -> Result<RoutedMessages, PathRefusal>
    ensures { IfOk result (λ gone. GivesWalked offers.old.items offers.new.items gone
        (branches (siblings_view named.now siblings.now) message.now flow)) }
{
    let mut first = round(
        alloc, builder, named, siblings, false, message, flow, offers,
    )?;
    if !first.processed {
        let second = round(alloc, builder, named, siblings, true, message, flow, offers)?;
        first.join(second)?;
    }
    Ok(first)
}

#[cycle(walk)]
fn round<B: Builder>(
    alloc: Global,
    builder: &mut B,
    named: &[Expr],
    siblings: &[Path],
    late: bool,
    message: &Message,
    flow: bool,
    offers: &mut Vec<Offer>,
) -> Result<RoutedMessages, PathRefusal>
    ensures { IfOk result (λ gone. GivesWalked offers.old.items offers.new.items gone
        (round (siblings_view named.now siblings.now) late message.now flow)) }
{
    let mut gone = RoutedMessages {
        out: Vec::new(alloc),
        processed: false,
    };
    for path in siblings {
        if path.fallback == late {
            let mine = one(alloc, builder, named, path, message, flow, offers)?;
            let ends = mine.processed & path.is_final;
            gone.join(mine)?;
            if ends {
                return Ok(gone);
            }
        }
    }
    Ok(gone)
}

/// Walks one sibling.
#[cycle(walk)]
pub(crate) fn one<B: Builder>(
    alloc: Global,
    builder: &mut B,
    named: &[Expr],
    path: &Path,
    message: &Message,
    flow: bool,
    offers: &mut Vec<Offer>,
) -> Result<RoutedMessages, PathRefusal>
    ensures { IfOk result (λ gone. GivesWalked offers.old.items offers.new.items gone
        (counted (marks path.now) (walk (own_steps named.now path.now) message.now
        (flow || (marks path.now).flow)))) }
{
    let shared = message.share()?;
    let mut gone = walk(
        alloc,
        builder,
        named,
        &path.elements,
        &path.embedded,
        shared,
        flow | path.flow,
        offers,
    )?;
    gone.processed |= path.drop_unmatched;
    Ok(gone)
}

/// Walks the first branch whose condition holds.
#[cycle(walk)]
fn choose<B: Builder>(
    alloc: Global,
    builder: &mut B,
    named: &[Expr],
    tests: &[(Expr, Vec<Element>)],
    other: &Option<Vec<Element>>,
    message: Message,
    flow: bool,
    offers: &mut Vec<Offer>,
) -> Result<RoutedMessages, PathRefusal>
    ensures { IfOk result (λ gone. GivesWalked offers.old.items offers.new.items gone
        (chosen (choice_view named.now tests.now other.now) message flow)) }
{
    for branch in tests {
        if holds(alloc, builder, &branch.0, named, &message)? {
            return walk(alloc, builder, named, &branch.1, &[], message, flow, offers);
        }
    }
    match other {
        Some(elements) => walk(alloc, builder, named, elements, &[], message, flow, offers),
        None => walk(alloc, builder, named, &[], &[], message, flow, offers),
    }
}
