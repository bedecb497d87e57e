// What a run has come to so far, told while it goes on.
ghost use Rattle.std.specs.Prelude.{◌≡◌};

use sg_crew::{DestLook, SourceLook, Watch};
use sg_device::NoMemory;
use sg_machine::Tally;
use sg_run_plan::InletPlan;
use sg_time::{Stamp, iso_text};
use sg_world::World;
use std::alloc::Global;

/// How often drops and full windows are told where nothing else is asked for, in seconds.
const MINUTE: u32 = 60;
/// How many rounds pass between two looks at most.
const ROUNDS: u64 = 256;
/// Microseconds of a quarter of a second.
const QUARTER: i64 = 250_000;

/// A source before the run, and when it was looked at last.
#[derive(Clone, Copy, Drop)]
struct SeenSource {
    /// The number of its driver.
    driver: u32,
    /// Its stored position before the run, where it has one.
    stored: Option<u64>,
    full: bool,
    eased: u64,
}

/// A destination before the run, and when it was looked at last.
#[derive(Clone, Copy, Drop)]
struct SeenDest {
    /// How many entries were left before the run.
    left: u64,
    dropped: u64,
    /// Since when its outlet fails, in microseconds since 1970.
    fails: Option<i64>,
}

/// What is told of a driver of sources.
#[derive(Clone, Copy, Drop)]
struct SourceStats {
    driver: u32,
    records: u64,
    bad_frames: u64,
    position: Option<u64>,
    /// A window of it was full at two looks in a row, and whenever it was asked for between them.
    waits: bool,
}

impl SourceStats {
    fn of(seen: SeenSource, look: SourceLook) -> SourceStats {
        SourceStats {
            driver: seen.driver,
            records: look.records,
            bad_frames: look.bad_frames,
            position: look.stored.or(seen.stored),
            waits: look.full && seen.full && look.eased == seen.eased,
        }
    }

    fn join(self, more: SourceStats) -> SourceStats {
        SourceStats {
            driver: self.driver,
            records: self.records.saturating_add(more.records),
            bad_frames: self.bad_frames.saturating_add(more.bad_frames),
            position: self.position,
            waits: self.waits || more.waits,
        }
    }
}

/// Tells what the sources and destinations of a run have come to, every so many seconds.
#[derive(Drop)]
pub(crate) struct Stats {
    alloc: Global,
    /// 0: drops and full windows alone.
    freq: u32,
    sources: Vec<SeenSource>,
    dests: Vec<SeenDest>,
    /// How many rounds may pass until it is asked again, and when it was asked last, in microseconds since 1970.
    most: u64,
    asked: i64,
}

impl Stats {
    /// Of a run over these inlets, before which the core has come to that. Where there is no memory nothing is told.
    pub(crate) fn new(
        alloc: Global,
        freq: u32,
        inlets: &[InletPlan],
        tally: &Result<Tally, NoMemory>,
    ) -> Stats {
        let (Ok(sources), Ok(dests)) = (
            sources_before(alloc, inlets, tally),
            dests_before(alloc, tally),
        ) else {
            return Stats::over(alloc, freq, Vec::new(alloc), Vec::new(alloc));
        };
        Stats::over(alloc, freq, sources, dests)
    }

    fn over(alloc: Global, freq: u32, sources: Vec<SeenSource>, dests: Vec<SeenDest>) -> Stats {
        Stats {
            alloc,
            freq,
            sources,
            dests,
            most: ROUNDS,
            asked: 0,
        }
    }

    /// How many seconds pass between two looks.
    fn period(&self) -> u32 {
        if self.freq == 0 { MINUTE } else { self.freq }
    }

    // The lines of all sources: one for each driver, whose inlets stand in a row.
    fn append_sources(
        &self,
        looks: &[SourceLook],
        moment: &[u8],
        out: &mut Vec<u8>,
    ) -> Result<(), NoMemory> {
        if looks.is_empty() || self.sources.is_empty() {
            return Ok(());
        }
        let mut sum = SourceStats::of(self.sources[0], looks[0]);
        for i in 1..looks.len().min(self.sources.len()) {
            let next = SourceStats::of(self.sources[i], looks[i]);
            sum = self.append_next(sum, next, moment, out)?;
        }
        self.append_source(sum, moment, out)
    }

    // Goes on to the next inlet. What is told of the driver before is whole where another begins.
    fn append_next(
        &self,
        sum: SourceStats,
        next: SourceStats,
        moment: &[u8],
        out: &mut Vec<u8>,
    ) -> Result<SourceStats, NoMemory> {
        if next.driver == sum.driver {
            return Ok(sum.join(next));
        }
        self.append_source(sum, moment, out)?;
        Ok(next)
    }

    fn append_source(
        &self,
        counts: SourceStats,
        moment: &[u8],
        out: &mut Vec<u8>,
    ) -> Result<(), NoMemory> {
        if self.freq == 0 && !counts.waits {
            return Ok(());
        }
        append_source(self.alloc, counts, moment, out)
    }

    // The lines of all destinations.
    fn append_dests(
        &self,
        looks: &[DestLook],
        now: i64,
        moment: &[u8],
        out: &mut Vec<u8>,
    ) -> Result<(), NoMemory> {
        for d in 0..looks.len().min(self.dests.len()) {
            let seen = self.dests[d];
            if self.freq != 0 || dropped(looks[d]) != seen.dropped {
                append_dest(self.alloc, d, looks[d], seen, now, moment, out)?;
            }
        }
        Ok(())
    }

    fn text(
        &self,
        sources: &[SourceLook],
        dests: &[DestLook],
        now: i64,
    ) -> Result<Vec<u8>, NoMemory> {
        let mut moment = Vec::new(self.alloc);
        append_moment(now, &mut moment)?;
        let mut text = Vec::new(self.alloc);
        self.append_sources(sources, &moment, &mut text)?;
        self.append_dests(dests, now, &moment, &mut text)?;
        Ok(text)
    }

    // Keeps what the next look is compared with.
    fn keep(&mut self, sources: &[SourceLook], dests: &[DestLook]) {
        for i in 0..sources.len() {
            if let Some(seen) = self.sources.get_mut(i) {
                seen.full = sources[i].full;
                seen.eased = sources[i].eased;
            }
        }
        for d in 0..dests.len() {
            if let Some(seen) = self.dests.get_mut(d) {
                seen.dropped = dropped(dests[d]);
            }
        }
    }
}

// The inlets with what is stored of them.
fn sources_before(
    alloc: Global,
    inlets: &[InletPlan],
    tally: &Result<Tally, NoMemory>,
) -> Result<Vec<SeenSource>, NoMemory> {
    let mut seen = Vec::new(alloc);
    if let Ok(tally) = tally {
        for (inlet, source) in inlets.iter().zip(tally.sources.as_slice()) {
            seen.push(SeenSource {
                driver: inlet.driver,
                stored: source.stored,
                full: false,
                eased: 0,
            })?;
        }
    }
    Ok(seen)
}

fn dests_before(alloc: Global, tally: &Result<Tally, NoMemory>) -> Result<Vec<SeenDest>, NoMemory> {
    let mut seen = Vec::new(alloc);
    if let Ok(tally) = tally {
        for dest in tally.dests.as_slice() {
            seen.push(SeenDest {
                left: dest.left,
                dropped: 0,
                fails: None,
            })?;
        }
    }
    Ok(seen)
}

fn dropped(look: DestLook) -> u64 {
    look.offered
        .dropped_full
        .saturating_add(look.offered.dropped_disk)
}

// How many rounds may pass where that many took so long: so few that the moment is met by a quarter of the time.
fn paced(rounds: u64, micros: i64, seconds: u32) -> u64 {
    if micros > i64::from(seconds).saturating_mul(QUARTER) {
        (rounds / 2).max(1)
    } else {
        rounds.saturating_mul(2).min(ROUNDS)
    }
}

fn append(text: &[u8], out: &mut Vec<u8>) -> Result<(), NoMemory> {
    out.extend_from_slice(text)?;
    Ok(())
}

// ISO 8601, in seconds and UTC.
fn append_moment(at: i64, out: &mut Vec<u8>) -> Result<(), NoMemory> {
    let stamp = Stamp { at, offset: 0 };
    if stamp.is_valid() {
        iso_text(stamp, 0, out)?;
    }
    Ok(())
}

// `MOMENT source I records N bad-frames N`, and more for a file, and where it waits
fn append_source(
    alloc: Global,
    counts: SourceStats,
    moment: &[u8],
    out: &mut Vec<u8>,
) -> Result<(), NoMemory> {
    let SourceStats {
        driver,
        records,
        bad_frames,
        position,
        waits,
    } = counts;
    append(moment, out)?;
    let line = format!(in alloc; " source {driver} records {records} bad-frames {bad_frames}")?;
    append(line.as_bytes(), out)?;
    if let Some(position) = position {
        let stored = format!(in alloc; " position {position}")?;
        append(stored.as_bytes(), out)?;
    }
    if waits {
        append(b" window full", out)?;
    }
    append(b"\n", out)
}

// `MOMENT destination D taken N dropped-full N dropped-disk N left N`, and more where entries are left or it fails
fn append_dest(
    alloc: Global,
    d: usize,
    look: DestLook,
    seen: SeenDest,
    now: i64,
    moment: &[u8],
    out: &mut Vec<u8>,
) -> Result<(), NoMemory> {
    let taken = look.taken;
    let left = seen
        .left
        .saturating_add(look.offered.kept)
        .saturating_sub(taken);
    let (full, disk) = (look.offered.dropped_full, look.offered.dropped_disk);
    append(moment, out)?;
    let line = format!(in alloc;
        " destination {d} taken {taken} dropped-full {full} dropped-disk {disk} left {left}"
    )?;
    append(line.as_bytes(), out)?;
    if left > 0 {
        append_age(alloc, look.oldest, now, out)?;
    }
    append_failing(seen.fails, out)?;
    append(b"\n", out)
}

// How many seconds ago that was, where it is known.
fn append_age(
    alloc: Global,
    oldest: Option<i64>,
    now: i64,
    out: &mut Vec<u8>,
) -> Result<(), NoMemory> {
    let Some(oldest) = oldest else {
        return Ok(());
    };
    let seconds = now.saturating_sub(oldest).max(0) / 1_000_000;
    let text = format!(in alloc; " oldest {seconds}")?;
    append(text.as_bytes(), out)
}

fn append_failing(since: Option<i64>, out: &mut Vec<u8>) -> Result<(), NoMemory> {
    let Some(since) = since else {
        return Ok(());
    };
    append(b" fails-since ", out)?;
    append_moment(since, out)
}

impl<W: World> Watch<W> for Stats {
    fn most(&self) -> u64 {
        self.most
    }

    fn note(&mut self, world: &W, dest: usize, fails: bool) {
        if let Some(seen) = self.dests.get_mut(dest) {
            if seen.fails.is_some() != fails {
                seen.fails = if fails { Some(world.clock()) } else { None };
            }
        }
    }

    fn is_due(&mut self, world: &mut W) -> bool {
        let now = world.clock();
        self.most = paced(self.most, now.saturating_sub(self.asked), self.period());
        self.asked = now;
        world.is_due(self.period())
    }

    fn look(&mut self, world: &mut W, sources: &[SourceLook], dests: &[DestLook], last: bool) {
        if last && self.freq == 0 {
            return;
        }
        if let Ok(text) = self.text(sources, dests, world.clock()) {
            if !text.is_empty() {
                world.tell(&text);
            }
        }
        self.keep(sources, dests);
    }
}
