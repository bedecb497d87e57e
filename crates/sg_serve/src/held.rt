// The devices that are open.
ghost use Rattle.std.specs.Prelude.{◌≡◌, ◌++◌, [], None, map, option_map, option_to_list};
ghost use Rattle.sg_serve.specs.Exits.{out_of, parts_out};
ghost use Rattle.sg_serve.specs.Run.{ClosesHeld};

use crate::Exit;
use crate::outlets::close_ways;
use crate::sources::close_sources;
use crate::stores::close_stores;
use crate::way::Parts;
use sg_actor::SourceActor;
use sg_by_path::SendsByPath;
use sg_device::{Disk, Outlet};
use sg_overflow::Buffered;
use sg_route::Router;
use sg_world::World;
use std::alloc::Global;

/// The devices that are open, in order. The last inlet may be without what takes its turns, and of the
/// last way out a part may be open.
pub(crate) struct OpenDevices<S: Disk, R, I, D: Outlet, P: SendsByPath> {
    pub(crate) stores: Vec<S>,
    pub(crate) sources: Vec<SourceActor<R, I>>,
    pub(crate) feed: Option<I>,
    pub(crate) ways: Vec<Buffered<Exit<D, P>, S>>,
    pub(crate) last: Option<Parts<D, P, S>>,
}

/// Stores, and nothing else.
pub(crate) fn hold_stores<S: Disk, R, I, D: Outlet, P: SendsByPath>(
    alloc: Global,
    stores: Vec<S>,
) -> OpenDevices<S, R, I, D, P>
    ensures stores { result.stores ≡ stores }
    ensures sources { result.sources.items ≡ [] }
    ensures feed { result.feed ≡ None }
    ensures ways { result.ways.items ≡ [] }
    ensures last { result.last ≡ None }
{
    OpenDevices {
        stores,
        sources: Vec::new(alloc),
        feed: None,
        ways: Vec::new(alloc),
        last: None,
    }
}

/// Stores and inlets, and no outlet.
pub(crate) fn hold_inlets<S: Disk, R, I, D: Outlet, P: SendsByPath>(
    alloc: Global,
    stores: Vec<S>,
    sources: Vec<SourceActor<R, I>>,
    feed: Option<I>,
) -> OpenDevices<S, R, I, D, P>
    ensures stores { result.stores ≡ stores }
    ensures sources { result.sources ≡ sources }
    ensures feed { result.feed ≡ feed }
    ensures ways { result.ways.items ≡ [] }
    ensures last { result.last ≡ None }
{
    OpenDevices {
        stores,
        sources,
        feed,
        ways: Vec::new(alloc),
        last: None,
    }
}

/// Closes all that is open: the stores, the inlets and the outlets, each in the order in which they were
/// opened.
pub(crate) fn close_all<W: World, R: Router + Drop>(
    held: OpenDevices<W::Store, R, W::Feed, W::Drain, W::Paths>,
    world: &mut W,
)
    ensures { ClosesHeld (W.state world.old) (W.state world.new)
        (map W.Store.state held.stores.items) (map (λ a. W.Feed.state a.inlet) held.sources.items
        ++ option_to_list (option_map W.Feed.state held.feed))
        (map (out_of W.Drain.state W.Paths.state W.Store.state) held.ways.items
        ++ option_to_list (option_map (parts_out W.Drain.state W.Paths.state W.Store.state)
        held.last)) }
{
    let OpenDevices {
        stores,
        sources,
        feed,
        ways,
        last,
    } = held;
    close_stores(stores, world);
    close_sources(sources, feed, world);
    close_ways(ways, last, world);
}
