// What comes of runs of configurations over a machine in memory, `run NAME`, `again NAME` and `each K NAME`, and what the rows before
// them say of it. The first word of a row tells what it does.
//
// - `file NAME TEXT` puts a file there from now on, in the place of an earlier one. `c` is the configuration.
// - `piece N`: from now on a pull gives at most so many bytes.
// - `peer IP PORT SLOT PEER TEXT`: in the next run this peer connects to the slot on that address, sends the text and closes.
// - `store NAME PLACE DIGITS`: the next run finds this store, with these bytes at that place and zeros around them, 128 at least.
// - `fail CALL NUMBERS`: in the next run these calls fail, counted from 0; `all` and `none` are numbers too. `read`, `store`,
//   `inlet` and `outlet` are readings of files and openings. `disk`, `pull` and `send` are the calls of one store, inlet or outlet,
//   by the first such row those of the first that is opened, by the second those of the second; reopenings count as sends.
// - `rounds N`: the next run has at most so many.
// - `run NAME`: a run with `--once`. It finds no other stores than those of the rows before it.
// - `again NAME`: a run over the stores as the run before left them.
// - `each K NAME`: runs in each of which one call of store K fails, the first, the second and so on; K counts from 0.
//
// A run's answer is NAME, the exit status, the text that is to be said, and behind each `; ` the frames that an outlet took, in
// the order of the configuration; or why the configuration wasn't loaded. That of `each` is the statuses, each once where it
// comes several times in a row, up to a run that makes no such call any more.
ghost use Rattle.std.specs.Prelude.{◌≡◌, ◌≤◌, ◌<◌, ◌^◌};

mod answers;
mod reading;

use crate::commands;
use crate::heard::Heard;
use crate::machine::broken;
use crate::stores::put_store;
use answers::{append_code, append_end, append_taken};
use reading::{calls, peer_parts};
use sg_device::NoMemory;
use sg_memory::{MemoryConnection, MemoryFile, MemoryWorld, OutletScript, Pace, WorldPlans};
use sg_memory_disk::{DiskPlan, FaultPlan, MemoryStores};
use sg_world::MemoryMachine;
use std::alloc::Global;
use std::collections::VecDeque;
use std::mem::replace;
use std::sync::Wait;
use std::thread::Threads;

/// The rounds of a run of which no row says how many it has, as of the command.
const ROUNDS: u64 = 1 << 36;

/// What the next run begins with.
#[derive(Drop)]
pub(crate) struct NextRun {
    alloc: Global,
    // The latest first.
    files: Vec<MemoryFile>,
    pace: Pace,
    peers: Vec<MemoryConnection>,
    plans: WorldPlans,
    opens: FaultPlan,
    disks: VecDeque<DiskPlan>,
    // The stores of a run that goes on from no other, and those that the last run left.
    fresh: MemoryStores,
    kept: MemoryStores,
    rounds: u64,
}

// At most so many bytes a pull, all of 2026-02-05T17:32:21Z.
fn pace(piece: usize) -> Pace
    requires { 0 < piece }
{
    Pace {
        piece,
        at: 1_770_312_741_000_000,
    }
}

fn copies(alloc: Global, files: &[MemoryFile]) -> Result<Vec<MemoryFile>, NoMemory> {
    let mut copies = Vec::new(alloc);
    for file in files {
        copies.push(MemoryFile::new(alloc, file.name.bytes(), &file.bytes)?)?;
    }
    Ok(copies)
}

// What a run by so many rounds may have.
fn within(rounds: u64) -> u64
    ensures some { 0 < result }
    ensures rounds { result ≤ 2 ^ 36 }
{
    if rounds == 0 || rounds > ROUNDS {
        ROUNDS
    } else {
        rounds
    }
}

// A run of this machine: its answer, and its status where the configuration was loaded.
fn run_in<T: Threads + Wait + Eprint + Sync>(
    rt: &T,
    alloc: Global,
    rounds: u64,
    machine: &mut MemoryMachine,
    out: &mut Vec<u8>,
) -> Result<Option<u8>, NoMemory>
    requires some { 0 < rounds }
    requires rounds { rounds ≤ 2 ^ 36 }
{
    let end = commands::run(rt, alloc, rounds, machine);
    append_end(alloc, &end, out)?;
    append_taken(&machine.world, out)?;
    match &end {
        Ok(outcome) => Ok(Some(outcome.end.code())),
        Err(_) => Ok(None),
    }
}

impl NextRun {
    /// No file, no store, and no call fails.
    pub(crate) fn new(alloc: Global) -> NextRun {
        NextRun {
            alloc,
            files: Vec::new(alloc),
            pace: pace(7),
            peers: Vec::new(alloc),
            plans: WorldPlans::never(alloc),
            opens: FaultPlan::never(alloc),
            disks: VecDeque::new(alloc),
            fresh: MemoryStores::new(alloc),
            kept: MemoryStores::new(alloc),
            rounds: ROUNDS,
        }
    }

    /// Does what a row says.
    pub(crate) fn hear<T: Threads + Wait + Eprint + Sync>(
        &mut self,
        rt: &T,
        row: &str,
    ) -> Result<Heard, NoMemory> {
        let (word, rest) = row.split_once(' ').unwrap_or((row, ""));
        match word {
            "run" => self.run(rt, rest, false),
            "again" => self.run(rt, rest, true),
            "each" => self.run_each(rt, rest),
            _ => self.set(word, rest),
        }
    }

    fn set(&mut self, word: &str, rest: &str) -> Result<Heard, NoMemory> {
        let understood = match word {
            "file" => self.put_file(rest)?,
            "piece" => self.set_piece(rest),
            "peer" => self.connect(rest)?,
            "store" => self.put_store(rest)?,
            "fail" => self.fail(rest)?,
            "rounds" => self.set_rounds(rest),
            _ => false,
        };
        if understood {
            Ok(Heard::Setting)
        } else {
            Ok(Heard::Unknown)
        }
    }

    fn put_file(&mut self, rest: &str) -> Result<bool, NoMemory> {
        let (name, text) = rest.split_once(' ').unwrap_or((rest, ""));
        let text = broken(self.alloc, text)?;
        let file = MemoryFile::new(self.alloc, name.as_bytes(), &text)?;
        self.files.insert(0, file)?;
        Ok(!name.is_empty())
    }

    fn set_piece(&mut self, rest: &str) -> bool {
        match rest.parse::<usize>() {
            Ok(piece) if piece > 0 => {
                self.pace = pace(piece);
                true
            }
            _ => false,
        }
    }

    fn set_rounds(&mut self, rest: &str) -> bool {
        match rest.parse::<u64>() {
            Ok(rounds) => {
                self.rounds = rounds;
                rounds > 0 && rounds <= ROUNDS
            }
            Err(_) => false,
        }
    }

    fn connect(&mut self, rest: &str) -> Result<bool, NoMemory> {
        let Some((ip, port, slot, peer, text)) = peer_parts(rest) else {
            return Ok(false);
        };
        let bytes = broken(self.alloc, text)?;
        let (ip, peer) = (ip.as_bytes(), peer.as_bytes());
        let mut connection = MemoryConnection::new(self.alloc, ip, port, peer, &bytes)?;
        connection.slot = slot;
        self.peers.push(connection)?;
        Ok(true)
    }

    fn put_store(&mut self, rest: &str) -> Result<bool, NoMemory> {
        let Some((name, rest)) = rest.split_once(' ') else {
            return Ok(false);
        };
        let Some((place, digits)) = rest.split_once(' ') else {
            return Ok(false);
        };
        let Ok(place) = place.parse::<u16>() else {
            return Ok(false);
        };
        let stores = &mut self.fresh;
        put_store(self.alloc, name.as_bytes(), place, digits, stores)
    }

    fn fail(&mut self, rest: &str) -> Result<bool, NoMemory> {
        let (call, numbers) = rest.split_once(' ').unwrap_or((rest, ""));
        let Some(plan) = calls(self.alloc, numbers)? else {
            return Ok(false);
        };
        match call {
            "read" => self.plans.reads = plan,
            "store" => self.opens = plan,
            "inlet" => self.plans.inlet_opens = plan,
            "outlet" => self.plans.outlet_opens = plan,
            "disk" => self.fail_disk(plan)?,
            "pull" => self.plans.inlets.push_back(plan)?,
            "send" => self.fail_sends(plan)?,
            _ => return Ok(false),
        }
        Ok(true)
    }

    fn fail_disk(&mut self, plan: FaultPlan) -> Result<(), NoMemory> {
        let plan = DiskPlan::failing(self.alloc, plan);
        self.disks.push_back(plan)?;
        Ok(())
    }

    fn fail_sends(&mut self, plan: FaultPlan) -> Result<(), NoMemory> {
        let plan = OutletScript::failing(self.alloc, plan);
        self.plans.outlets.push_back(plan)?;
        Ok(())
    }

    // The machine of the next run, over these stores.
    fn world(&mut self, stores: MemoryStores) -> Result<MemoryWorld, NoMemory> {
        let alloc = self.alloc;
        let files = copies(alloc, &self.files)?;
        let plans = replace(&mut self.plans, WorldPlans::never(alloc));
        let mut world = MemoryWorld::failing(alloc, files, self.pace, plans);
        world.connections = replace(&mut self.peers, Vec::new(alloc));
        world.stores = stores;
        world.stores.opens = replace(&mut self.opens, FaultPlan::never(alloc));
        world.stores.plans = replace(&mut self.disks, VecDeque::new(alloc));
        Ok(world)
    }

    // A run over these stores: its answer, and its status where the configuration was loaded.
    fn run_over<T: Threads + Wait + Eprint + Sync>(
        &mut self,
        rt: &T,
        stores: MemoryStores,
        out: &mut Vec<u8>,
    ) -> Result<Option<u8>, NoMemory> {
        let alloc = self.alloc;
        let rounds = within(self.rounds);
        self.rounds = ROUNDS;
        let world = self.world(stores)?;
        let mut machine = MemoryMachine { world };
        let code = run_in(rt, alloc, rounds, &mut machine, out)?;
        self.kept = replace(&mut machine.world.stores, MemoryStores::new(alloc));
        Ok(code)
    }

    fn run<T: Threads + Wait + Eprint + Sync>(
        &mut self,
        rt: &T,
        name: &str,
        again: bool,
    ) -> Result<Heard, NoMemory> {
        let empty = MemoryStores::new(self.alloc);
        let stores = if again {
            replace(&mut self.kept, empty)
        } else {
            replace(&mut self.fresh, empty)
        };
        let mut out = name.as_bytes().to_vec(self.alloc)?;
        out.push(b':')?;
        self.run_over(rt, stores, &mut out)?;
        Ok(Heard::Answer(out))
    }

    // A run in which this call of that store fails.
    fn run_failing<T: Threads + Wait + Eprint + Sync>(
        &mut self,
        rt: &T,
        store: u8,
        call: u64,
    ) -> Result<Option<u8>, NoMemory> {
        let alloc = self.alloc;
        for _before in 0..store {
            self.fail_disk(FaultPlan::never(alloc))?;
        }
        self.fail_disk(FaultPlan::new(vec![in alloc; call]?))?;
        let stores = MemoryStores::new(alloc);
        let mut out = Vec::new(alloc);
        self.run_over(rt, stores, &mut out)
    }

    // The statuses of runs in each of which the next call of a store fails. Whether all of them were loaded.
    fn append_codes<T: Threads + Wait + Eprint + Sync>(
        &mut self,
        rt: &T,
        store: u8,
        out: &mut Vec<u8>,
    ) -> Result<bool, NoMemory> {
        let mut last = None;
        for call in 0..1_000 {
            let Some(code) = self.run_failing(rt, store, call)? else {
                return Ok(false);
            };
            if last != Some(code) {
                append_code(self.alloc, code, out)?;
            }
            if code == 0 {
                return Ok(true);
            }
            last = Some(code);
        }
        Ok(true)
    }

    fn run_each<T: Threads + Wait + Eprint + Sync>(
        &mut self,
        rt: &T,
        rest: &str,
    ) -> Result<Heard, NoMemory> {
        let Some((store, name)) = rest.split_once(' ') else {
            return Ok(Heard::Unknown);
        };
        let Ok(store) = store.parse::<u8>() else {
            return Ok(Heard::Unknown);
        };
        let mut out = name.as_bytes().to_vec(self.alloc)?;
        out.push(b':')?;
        if !self.append_codes(rt, store, &mut out)? {
            return Ok(Heard::Unknown);
        }
        Ok(Heard::Answer(out))
    }
}
