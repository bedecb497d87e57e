// The calls of a run, drawn at random, and the events that they are.
ghost use Rattle.std.specs.Prelude.{◌≡◌, ◌≤◌, ◌<◌, ◌+◌, ◌^◌, true, IfOk};
ghost use Rattle.sg_standing.specs.Sources.{begun_in};
ghost use Rattle.test_core_runs.specs.Cores.{IsTried, IsSomewhere};

use crate::cores::{FIRST, SECOND};
use crate::draws::Draws;
use crate::entries::{MadeOffer, draw_records, left_behind, numbers_of, records_of, short};
use crate::lines::DestLine;
use crate::openings::{OpenedCore, events_of, forget_place};
use sg_core::Core;
use sg_counter::{CoreFront, Refill, Refused, Settled, Stored};
use sg_list::Seq;
use sg_machine::{Act, Admission, Event, Verdict};
use sg_memory_disk::MemoryDisk;
use std::alloc::{AllocError, Global};

/// A run so far.
#[derive(Drop)]
pub(crate) struct RunSoFar {
    pub(crate) events: Vec<Event>,
    /// The stores that have failed.
    pub(crate) failed: Vec<u32>,
    /// The offers that were taken in.
    pub(crate) made: Vec<MadeOffer>,
    pub(crate) lines: [DestLine; 3],
    /// How many records of each source a replay counts that aren't the core's.
    pub(crate) brought: [u64; 3],
    // The source began at the position that was found.
    placed: [bool; 3],
    /// How many fronts were compared.
    pub(crate) fronts: u64,
    /// How many sources began anew.
    pub(crate) rewinds: u64,
    /// Whether each answer was right so far.
    pub(crate) right: bool,
}

impl RunSoFar {
    pub(crate) fn new(alloc: Global) -> RunSoFar {
        RunSoFar {
            events: Vec::new(alloc),
            failed: Vec::new(alloc),
            made: Vec::new(alloc),
            lines: [
                DestLine::new(alloc),
                DestLine::new(alloc),
                DestLine::new(alloc),
            ],
            brought: [0; 3],
            placed: [false; 3],
            fronts: 0,
            rewinds: 0,
            right: true,
        }
    }

    /// A run over stores in which this is found, of the offers that were made before.
    pub(crate) fn over(
        alloc: Global,
        made: &[MadeOffer],
        found: OpenedCore,
    ) -> Result<RunSoFar, AllocError> {
        let events = events_of(alloc, made, &found)?;
        let OpenedCore { positions, lines } = found;
        let mut run = RunSoFar::new(alloc);
        run.events = events;
        run.made = left_behind(alloc, made)?;
        run.lines = lines;
        run.brought[0] = 1;
        for i in 0..3usize {
            if positions[i] > 0 {
                run.placed[i] = true;
                run.brought[i] = run.brought[i].saturating_add(1);
            }
        }
        Ok(run)
    }

    // An event more, in which the stores failed that have failed now and hadn't before. Those.
    fn add(
        &mut self,
        alloc: Global,
        core: &Core<MemoryDisk>,
        act: Act,
    ) -> Result<Seq<u32>, AllocError>
        requires { IsTried core.now }
    {
        let mut failed = Seq::empty(alloc);
        for store in 0..5u32 {
            if core.failed(store) && !self.failed.contains(&store) {
                failed.push(store)?;
                self.failed.push(store)?;
            }
        }
        let listed = failed.copy()?;
        self.events.push(Event { act, failed })?;
        Ok(listed)
    }

    // An event in which each store that fails tried to append what waits.
    fn look(&mut self, alloc: Global, core: &Core<MemoryDisk>, act: Act) -> Result<(), AllocError>
        requires { IsTried core.now }
    {
        let failed = self.add(alloc, core, act)?;
        if failed.as_slice().contains(&3) {
            let tried = self.waiting(alloc, 0)?;
            self.lines[0].fail(tried);
        }
        if failed.as_slice().contains(&4) {
            let tried = self.waiting(alloc, 2)?;
            self.lines[2].fail(tried);
        }
        Ok(())
    }

    // The source has begun anew. A replay knows no position that was found: for it the source begins at 0.
    fn begin_anew(
        &mut self,
        alloc: Global,
        core: &Core<MemoryDisk>,
        i: u32,
    ) -> Result<(), AllocError>
        requires tried { IsTried core.now }
        requires inlet { i < 3 }
    {
        if !self.placed[i as usize] {
            return self.look(alloc, core, Act::Rewind(i));
        }
        forget_place(alloc, &mut self.events, i);
        self.placed[i as usize] = false;
        self.brought[i as usize] = self.brought[i as usize].saturating_sub(1);
        self.rewinds = self.rewinds.saturating_add(1);
        self.look(alloc, core, Act::Look)
    }

    // The offers from that number on get these verdicts.
    fn take(&mut self, first: usize, verdicts: &[Verdict]) -> Result<(), AllocError> {
        for k in 0..verdicts.len() {
            let number = first.saturating_add(k);
            if let Some(offer) = self.made.get(number) {
                if offer.dest < 3 {
                    self.lines[offer.dest as usize].take(short(number), verdicts[k])?;
                }
            }
        }
        Ok(())
    }

    pub(crate) fn made(&self) -> &[MadeOffer] {
        &self.made
    }

    fn would_spool(
        &self,
        alloc: Global,
        first: usize,
        dest: u32,
        capacity: u64,
    ) -> Result<Vec<u32>, AllocError>
        requires { dest < 3 }
    {
        self.lines[dest as usize].would_spool(alloc, &self.made, first, dest, capacity)
    }

    // The entries of a destination that are left.
    fn left(&self, alloc: Global, dest: u32) -> Result<Vec<u32>, AllocError>
        requires { dest < 3 }
    {
        self.lines[dest as usize].left(alloc)
    }

    // The entries of a destination that wait.
    fn waiting(&self, alloc: Global, dest: u32) -> Result<Vec<u32>, AllocError>
        requires { dest < 3 }
    {
        self.lines[dest as usize].waiting(alloc)
    }

    // What the disk-buffers would take of the offers from that number on is what they tried to append, where
    // they fail in this event.
    fn admit(
        &mut self,
        alloc: Global,
        core: &Core<MemoryDisk>,
        act: Act,
        first: usize,
    ) -> Result<(), AllocError>
        requires { IsTried core.now }
    {
        let zero = self.would_spool(alloc, first, 0, FIRST)?;
        let two = self.would_spool(alloc, first, 2, SECOND)?;
        let failed = self.add(alloc, core, act)?;
        if failed.as_slice().contains(&3) {
            self.lines[0].fail(zero);
        }
        if failed.as_slice().contains(&4) {
            self.lines[2].fail(two);
        }
        Ok(())
    }

    // An event in which a source's records, whose offers are those from that number on, get these verdicts.
    fn admitted(
        &mut self,
        alloc: Global,
        core: &Core<MemoryDisk>,
        i: u32,
        records: Vec<Admission>,
        verdicts: Vec<Verdict>,
        first: usize,
    ) -> Result<(), AllocError>
        requires { IsTried core.now }
    {
        let answered = Vec::from_slice(alloc, &verdicts)?;
        let act = Act::Admit {
            inlet: i,
            records: Seq::new(records),
            verdicts: Seq::new(verdicts),
        };
        self.admit(alloc, core, act, first)?;
        self.take(first, &answered)
    }
}

#[tactic(auto, using(crate::proofs::TestLemmas::goes_somewhere))]
fn feed(
    alloc: Global,
    core: &mut Core<MemoryDisk>,
    i: u32,
    end: u64,
    draws: &mut Draws,
    run: &mut RunSoFar,
) -> Result<(), AllocError>
    requires tried { IsTried core.old }
    requires at { IsSomewhere core.old }
    requires inlet { i < 3 }
    requires end { end < 2 ^ 32 }
    requires few { core.old.calls + 1 < 2 ^ 54 }
    ensures tried { IsTried core.new }
    ensures at { IsSomewhere core.new }
    ensures calls { core.new.calls ≤ core.old.calls + 1 }
{
    let first = run.made.len();
    let count = draw_records(draws, i, end, &mut run.made)?;
    let told = records_of(alloc, run.made(), first, end, count)?;
    let given = records_of(alloc, run.made(), first, end, count)?;
    let credit = core.credit(i);
    match core.admit(alloc, i, given) {
        Ok(verdicts) => {
            run.right = run.right & (credit >= count);
            run.admitted(alloc, core, i, told, verdicts, first)
        }
        Err(refused) => {
            run.right = run.right & is_back(&refused, credit, count);
            run.made.truncate(first);
            run.look(alloc, core, Act::Look)
        }
    }
}

// Whether all of so many records came back, for lack of credit or of memory.
fn is_back(refused: &Refused, credit: u64, count: u64) -> bool {
    match refused {
        Refused::NoCredit(records) => credit < count && records.len() as u64 == count,
        Refused::NoMemory(records) => records.len() as u64 == count,
    }
}

// The first entries that are left, so many at most: the first one's place and their numbers.
#[tactic(auto, using(crate::proofs::TestLemmas::goes_somewhere))]
fn front(
    alloc: Global,
    core: &mut Core<MemoryDisk>,
    d: u32,
    most: u32,
    run: &mut RunSoFar,
) -> Result<(u64, u32), AllocError>
    requires tried { IsTried core.old }
    requires at { IsSomewhere core.old }
    requires dest { d < 3 }
    requires some { 0 < most }
    requires few { most ≤ 1000 }
    requires calls { core.old.calls + 1 < 2 ^ 54 }
    ensures tried { IsTried core.new }
    ensures at { IsSomewhere core.new }
    ensures calls { core.new.calls ≤ core.old.calls + 1 }
{
    let left = run.left(alloc, d)?;
    run.fronts = run.fronts.saturating_add(1);
    match core.front(alloc, d, most)? {
        CoreFront::Entries { place, messages } => {
            let numbers = numbers_of(alloc, run.made(), messages.as_slice())?;
            run.right = run.right & left.starts_with(&numbers);
            Ok((place, messages.len().min(1000) as u32))
        }
        CoreFront::Empty => {
            run.right = run.right & left.is_empty();
            Ok((0, 0))
        }
        CoreFront::Broken => Ok((0, 0)),
    }
}

// The destination takes as many of its first entries as are shown; or one, where none is.
fn drain(
    alloc: Global,
    core: &mut Core<MemoryDisk>,
    d: u32,
    draws: &mut Draws,
    run: &mut RunSoFar,
) -> Result<(), AllocError>
    requires tried { IsTried core.old }
    requires at { IsSomewhere core.old }
    requires dest { d < 3 }
    requires few { core.old.calls + 2 < 2 ^ 54 }
    ensures tried { IsTried core.new }
    ensures at { IsSomewhere core.new }
    ensures calls { core.new.calls ≤ core.old.calls + 2 }
{
    let most = 1 + draws.below(4) as u32;
    let (place, shown) = front(alloc, core, d, most, run)?;
    run.look(alloc, core, Act::Look)?;
    let (place, n) = if shown == 0 {
        (draws.below(9), 1)
    } else {
        (place, shown)
    };
    settle(alloc, core, d, place, n, run)
}

#[tactic(auto, using(crate::proofs::TestLemmas::goes_somewhere))]
fn settle(
    alloc: Global,
    core: &mut Core<MemoryDisk>,
    d: u32,
    place: u64,
    n: u32,
    run: &mut RunSoFar,
) -> Result<(), AllocError>
    requires tried { IsTried core.old }
    requires at { IsSomewhere core.old }
    requires dest { d < 3 }
    requires some { 0 < n }
    requires few { core.old.calls + 1 < 2 ^ 54 }
    ensures tried { IsTried core.new }
    ensures at { IsSomewhere core.new }
    ensures calls { core.new.calls ≤ core.old.calls + 1 }
{
    match core.settle(d, place, n) {
        Settled::NotFront => run.look(alloc, core, Act::Look),
        Settled::Done | Settled::DiskFailed => {
            run.lines[d as usize].settle(n, &mut run.made);
            let failed = run.add(alloc, core, Act::Settle(d, n))?;
            if !failed.is_empty() {
                run.lines[d as usize].fail(Vec::new(alloc));
            }
            Ok(())
        }
    }
}

#[tactic(auto, using(crate::proofs::TestLemmas::goes_somewhere))]
fn refill(
    alloc: Global,
    core: &mut Core<MemoryDisk>,
    d: u32,
    run: &mut RunSoFar,
) -> Result<(), AllocError>
    requires tried { IsTried core.old }
    requires at { IsSomewhere core.old }
    requires dest { d < 3 }
    requires few { core.old.calls + 1 < 2 ^ 54 }
    ensures tried { IsTried core.new }
    ensures at { IsSomewhere core.new }
    ensures calls { core.new.calls ≤ core.old.calls + 1 }
{
    match core.refill(d) {
        Refill::Moved(n) => {
            run.lines[d as usize].refill(n)?;
            run.look(alloc, core, Act::Refill(d, n))
        }
        Refill::NoneWaits | Refill::NoRoom | Refill::Broken => run.look(alloc, core, Act::Look),
    }
}

#[tactic(auto, using(crate::proofs::TestLemmas::goes_somewhere))]
fn store(
    alloc: Global,
    core: &mut Core<MemoryDisk>,
    i: u32,
    run: &mut RunSoFar,
) -> Result<(), AllocError>
    requires tried { IsTried core.old }
    requires at { IsSomewhere core.old }
    requires inlet { i < 3 }
    requires few { core.old.calls + 1 < 2 ^ 54 }
    ensures tried { IsTried core.new }
    ensures at { IsSomewhere core.new }
    ensures calls { core.new.calls ≤ core.old.calls + 1 }
{
    let act = match core.store(i) {
        Stored::Wrote(position) => Act::Store(i, position),
        Stored::Unchanged | Stored::Broken => Act::Look,
    };
    run.look(alloc, core, act)
}

// No record of the source came in.
#[tactic(auto, using(crate::proofs::TestLemmas::unbegun))]
fn is_unbegun(alloc: Global, core: &Core<MemoryDisk>, i: u32) -> Result<bool, AllocError>
    requires tried { IsTried core.now }
    requires at { IsSomewhere core.now }
    requires inlet { i < 3 }
    ensures { IfOk result (λ unbegun. unbegun ≡ true → begun_in core.now.sources i ≡ 0) }
{
    let tally = core.tally(alloc)?;
    let Some(source) = tally.sources.get(i as usize) else {
        return Ok(false);
    };
    if source.records == 0 {
        return Ok(true);
    }
    Ok(false)
}

#[tactic(auto, using(crate::proofs::TestLemmas::goes_somewhere))]
fn rewind(
    alloc: Global,
    core: &mut Core<MemoryDisk>,
    i: u32,
    run: &mut RunSoFar,
) -> Result<(), AllocError>
    requires tried { IsTried core.old }
    requires at { IsSomewhere core.old }
    requires inlet { i < 3 }
    requires few { core.old.calls + 1 < 2 ^ 54 }
    ensures tried { IsTried core.new }
    ensures at { IsSomewhere core.new }
    ensures calls { core.new.calls ≤ core.old.calls + 1 }
{
    let unbegun = is_unbegun(alloc, core, i)?;
    if !unbegun {
        return Ok(());
    }
    let position = core.position(i);
    match core.rewind(i) {
        Stored::Wrote(place) => {
            run.right = run.right & (position > 0) & (place == 0);
            run.begin_anew(alloc, core, i)
        }
        Stored::Unchanged => {
            run.right = run.right & (position == 0);
            run.look(alloc, core, Act::Look)
        }
        Stored::Broken => run.look(alloc, core, Act::Look),
    }
}

/// A call or two. Records that it brings end behind that place.
pub(crate) fn step(
    alloc: Global,
    core: &mut Core<MemoryDisk>,
    end: u64,
    draws: &mut Draws,
    run: &mut RunSoFar,
) -> Result<(), AllocError>
    requires tried { IsTried core.old }
    requires at { IsSomewhere core.old }
    requires end { end < 2 ^ 32 }
    requires few { core.old.calls + 2 < 2 ^ 54 }
    ensures tried { IsTried core.new }
    ensures at { IsSomewhere core.new }
    ensures calls { core.new.calls ≤ core.old.calls + 2 }
{
    let which = draws.below(3) as u32;
    match draws.below(9) {
        0..=2 => feed(alloc, core, which, end, draws, run),
        3..=5 => drain(alloc, core, which, draws, run),
        6 => refill(alloc, core, which, run),
        7 => rewind(alloc, core, which, run),
        _ => store(alloc, core, which, run),
    }
}
