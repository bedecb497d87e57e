// What log paths offer for a record, by the definition.
ghost use Rattle.std.specs.Prelude.{◌≡◌, ◌<◌, ◌≤ℤ◌, ◌&&◌, pos, false, IfOk, List, Some, length, map, slice_get};
ghost use Rattle.sg_filter.specs.declared.expr.Expr.{Expr as AnExpr};
ghost use Rattle.sg_route.specs.Offers.{record_at};
ghost use Rattle.sg_tree.specs.Offers.{AreOffers, deliveries_of, is_offered, offered, top_view, woods_of};
ghost use Rattle.sg_tree.specs.Readings.{inlet_of};
ghost use Rattle.sg_tree.specs.Plain.{marks};
ghost use Rattle.sg_tree.specs.Walk.{is_in_round, round};
ghost use Rattle.test_paths.specs.Gives.{GivesWalked};

use crate::gone::RoutedMessages;
use crate::walk::one;
use bytes::Bytes;
use sg_filter::Expr;
use sg_msg::{Message, Offer};
use sg_pattern::Builder;
use sg_r5424::SdNames;
use sg_tree::{Forest, InletRule, Path, PathRefusal, is_skipped, read_item};
use std::alloc::Global;

fn is_offered(path: &Path, inlet: u32) -> bool
    ensures { (named : List AnExpr) → result ≡ is_offered inlet (top_view named path.now) }
{
    path.catchall | path.sources.contains(&inlet)
}

/// Whether a round over the statements that are offered the inlet's messages walks this one.
fn takes_part(path: &Path, inlet: u32, late: bool) -> bool
    ensures { (named : List AnExpr) → result
        ≡ (is_offered inlet (top_view named path.now) && is_in_round late (marks path.now)) }
{
    is_offered(path, inlet) & (path.fallback == late)
}

fn round_of_tops<B: Builder>(
    alloc: Global,
    builder: &mut B,
    named: &[Expr],
    paths: &[Path],
    inlet: u32,
    late: bool,
    message: &Message,
    offers: &mut Vec<Offer>,
) -> Result<RoutedMessages, PathRefusal>
    ensures { IfOk result (λ gone. GivesWalked offers.old.items offers.new.items gone
        (round (offered inlet (map (top_view named.now) paths.now)) late message.now false)) }
{
    let mut gone = RoutedMessages {
        out: Vec::new(alloc),
        processed: false,
    };
    for path in paths {
        if takes_part(path, inlet, late) {
            let mine = one(alloc, builder, named, path, message, false, offers)?;
            let ends = mine.processed & path.is_final;
            gone.join(mine)?;
            if ends {
                return Ok(gone);
            }
        }
    }
    Ok(gone)
}

// What the top-level statements offer for a message of an inlet.
fn offers_of<B: Builder>(
    alloc: Global,
    builder: &mut B,
    forest: &Forest,
    inlet: u32,
    message: &Message,
) -> Result<Vec<Offer>, PathRefusal>
    ensures { IfOk result
        (λ offers. offers.items ≡ deliveries_of (woods_of forest.now) inlet message.now) }
{
    let mut offers = Vec::new(alloc);
    let named = forest.filters.as_slice();
    let paths = forest.paths.as_slice();
    let first = round_of_tops(
        alloc,
        builder,
        named,
        paths,
        inlet,
        false,
        message,
        &mut offers,
    )?;
    if !first.processed {
        round_of_tops(
            alloc,
            builder,
            named,
            paths,
            inlet,
            true,
            message,
            &mut offers,
        )?;
    }
    Ok(offers)
}

fn rule_at(forest: &Forest, inlet: u32) -> &InletRule
    requires { inlet < length forest.now.inlets.items }
    ensures { slice_get (map inlet_of forest.now.inlets.items) inlet ≡ Some (inlet_of result.now) }
{
    &forest.inlets[inlet as usize]
}

/// The offers for a record of an inlet, by the definition. It makes each pattern anew for each message
/// that meets it, and goes as deep as a statement has junctions.
///
/// `at` is the moment of the pull, in microseconds since 1970-01-01T00:00:00Z, 0 to
/// 250,000,000,000,000,000, and `peer` the name of who sent the record. TooManyOffers is never answered,
/// and the others only for lack of memory or for a pattern that the message met.
pub(crate) fn offers_plain<B: Builder>(
    alloc: Global,
    forest: &Forest,
    builder: &mut B,
    inlet: u32,
    item: Bytes,
    at: i64,
    peer: &[u8],
) -> Result<Vec<Offer>, PathRefusal>
    requires inlet { inlet < length forest.now.inlets.items }
    requires moment { (pos 0 ≤ℤ at) × (at ≤ℤ pos 250_000_000_000_000_000) }
    ensures { IfOk result (λ offers. AreOffers (woods_of forest.now) inlet
        (record_at peer.now item at) offers.items) }
{
    let rule = rule_at(forest, inlet);
    if is_skipped(rule, item.as_slice()) {
        return Ok(Vec::new(alloc));
    }
    let peer = Bytes::copy_from_slice(alloc, peer)?;
    let mut names = SdNames::new(alloc);
    let message = read_item(alloc, rule, &mut names, item, at, &peer)?;
    offers_of(alloc, builder, forest, inlet, &message)
}
