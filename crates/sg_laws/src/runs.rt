// The headline of a plan's run.
ghost use Rattle.sg_laws.specs.Headline.{RunsDeliver};
ghost use Rattle.sg_serve.specs.Exits.{way_of};

use crate::drops_are_due;
use sg_dynfile::texts_stand_under_their_paths;
use sg_route::Router;
use sg_standing::{images_are_safe, images_between_are_safe};
use sg_world::World;

/// In each run of a plan, however it ended, each destination takes from each source, in order, a prefix of
/// exactly the texts that the source's router gives for the records alone, which are the first that its
/// inlet gave, less those dropped without flow-control; its outlet took the frames of the entries settled,
/// no more and no fewer, each under the path that its message names where messages do; the windows are
/// kept; and at every moment since the core was opened a stop leaves in the stores what is safe.
pub fn runs_deliver<W: World, R: Router>(world: &W, router: &[R])
    ensures { RunsDeliver W.Feed.state (way_of W.Drain.state W.Paths.state W.Store.state)
        R.offers R.inlets R.dests }
{
    let _world = world;
    let _router = router;
    drops_are_due();
    images_are_safe();
    images_between_are_safe();
    texts_stand_under_their_paths();
}
