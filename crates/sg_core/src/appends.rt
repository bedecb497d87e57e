// Entries that disk-buffers take, each with one commit.
ghost use Rattle.std.specs.Prelude.{◌≡◌, ◌<◌, ℕ, false, ◌||◌, not, length, option_to_list};
ghost use Rattle.sg_stores.specs.Appending.{StagesAt, CommitsAt};
ghost use Rattle.sg_offers.specs.Answering.{fails_at};
ghost use Rattle.sg_offers.specs.Payloads.{buffers_of};
ghost use Rattle.sg_offers.specs.Rooms.{seen_in, AreTo};
ghost use Rattle.sg_core.specs.Admits.{HaveStores, AreApartBuffers, StagesFor, CommitsFor, is_staged, StagedAll, CommittedAll, AppendedAll};

use sg_device::Disk;
use sg_list::Seq;
use sg_offers::Payload;
use sg_sinks::Sink;
use sg_stores::Stores;

// Stages the entry at the disk-buffer that takes it.
fn stage_one<D: Disk>(sinks: &Seq<Sink>, stores: &mut Stores<D>, payload: &Payload)
    requires to { payload.now.dest < length sinks.now }
    requires stores { HaveStores (buffers_of (seen_in sinks.now)) (length stores.old) }
    ensures { StagesFor stores.old stores.new (buffers_of (seen_in sinks.now)) payload.now }
{
    let Some(buffer) = sinks.at(payload.dest as usize).setup().buffer else {
        return;
    };
    let Some(block) = &payload.block else {
        return;
    };
    stores.stage(buffer.store, block);
}

// Stages the entries that are taken, and marks their destinations.
fn stage_all<D: Disk>(
    sinks: &Seq<Sink>,
    stores: &mut Stores<D>,
    payloads: &[Payload],
    staged: &mut [bool],
)
    requires to { AreTo (length sinks.now) payloads.now }
    requires flags { length staged.old ≡ length sinks.now }
    requires stores { HaveStores (buffers_of (seen_in sinks.now)) (length stores.old) }
    ensures stores { StagedAll stores.old stores.new (buffers_of (seen_in sinks.now)) payloads.now }
    ensures flags { (d : ℕ)
        → fails_at staged.new d ≡ (fails_at staged.old d || is_staged d payloads.now) }
{
    for payload in payloads {
        if payload.taken {
            stage_one(sinks, stores, payload);
            staged[payload.dest as usize] = true;
        }
    }
}

// Commits what is staged at a destination's disk-buffer. Whether its store fails.
fn commit_one<D: Disk>(sinks: &Seq<Sink>, stores: &mut Stores<D>, d: usize) -> bool
    requires to { d < length sinks.now }
    requires stores { HaveStores (buffers_of (seen_in sinks.now)) (length stores.old) }
    ensures { CommitsFor stores.old stores.new (buffers_of (seen_in sinks.now)) d result }
{
    match sinks.at(d).setup().buffer {
        Some(buffer) => !stores.commit(buffer.store),
        None => false,
    }
}

// Commits at each disk-buffer that is marked, and leaves the marks of those whose stores fail.
fn commit_all<D: Disk>(sinks: &Seq<Sink>, stores: &mut Stores<D>, staged: &mut [bool])
    requires flags { length staged.old ≡ length sinks.now }
    requires stores { HaveStores (buffers_of (seen_in sinks.now)) (length stores.old) }
    requires apart { AreApartBuffers (buffers_of (seen_in sinks.now)) }
    ensures { CommittedAll stores.old stores.new (buffers_of (seen_in sinks.now)) staged.old
        staged.new }
{
    for d in 0..staged.len() {
        if staged[d] {
            staged[d] = commit_one(sinks, stores, d);
        }
    }
}

/// Appends what the disk-buffers take, with one commit each, and marks those whose stores fail.
pub fn append_all<D: Disk>(
    sinks: &Seq<Sink>,
    stores: &mut Stores<D>,
    payloads: &[Payload],
    fails: &mut [bool],
)
    requires to { AreTo (length sinks.now) payloads.now }
    requires flags { length fails.old ≡ length sinks.now }
    requires unset { (d : ℕ) → fails_at fails.old d ≡ false }
    requires stores { HaveStores (buffers_of (seen_in sinks.now)) (length stores.old) }
    requires apart { AreApartBuffers (buffers_of (seen_in sinks.now)) }
    ensures { AppendedAll stores.old stores.new (buffers_of (seen_in sinks.now)) payloads.now
        fails.new }
{
    stage_all(sinks, stores, payloads, fails);
    commit_all(sinks, stores, fails);
}
