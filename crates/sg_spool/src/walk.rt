// The walk along the gates.
ghost use Rattle.std.specs.Prelude.{◌≡◌, ◌≢◌, ◌<◌, ◌≤◌, ◌+◌, ◌^◌, List, ℕ, length, IfOk, IfErr, OnOk, None};
ghost use Rattle.sg_device.specs.Disk.{content, WhereTold, HasCause};
ghost use Rattle.sg_spool.specs.Opening.{WalkReason};
ghost use Rattle.sg_spool.specs.Places.{AreGatesOrdered};
ghost use Rattle.sg_spool.specs.Ring.{IsEnd, size_at};
ghost use Rattle.sg_spool.specs.Walk.{IsGate, FitsIn, IsWalkAt, IsGateAmong, StepLeads, WalkGoesOn};

use sg_device::{Disk, DiskFault};
use sg_stable::StoreRefusal;

/// What stands at a gate.
#[derive(Clone, Copy)]
pub enum Gate {
    Shut,
    Entry(u32),
    Jump,
    Broken,
}

/// A gate's place, the jump that was met on the way to it, and the number of entries before it.
#[derive(Clone, Copy)]
pub struct GatePlace {
    pub jump: Option<u64>,
    /// A byte offset in the store.
    pub gate: u64,
    pub count: u64,
}

/// Where a walk goes on.
#[derive(Clone, Copy)]
pub enum GateStep {
    On(GatePlace),
    End,
    Damaged(u64),
}

// Reads the gate at this place of a file of this length.
fn gate_at<D: Disk>(disk: &mut D, gate: u64, len: u64) -> Result<Gate, DiskFault>
    requires inside { gate < len }
    requires small { len < 2 ^ 63 }
    requires whole { WhereTold (content (D.state disk.old)) (λ b. length b ≡ len) }
    ensures found { IfOk result
        (λ g. WhereTold (content (D.state disk.old)) (λ b. IsGate b gate g)) }
    ensures fits { IfOk result (FitsIn len gate) }
    ensures told { (D.state disk.new).told ≡ (D.state disk.old).told }
    ensures cause { HasCause (D.state disk.old).faults (D.state disk.new).faults result }
{
    let mut bytes = [0; 5];
    let count = disk.read_at(gate, &mut bytes)?;
    if bytes[0] == 0 {
        return Ok(Gate::Shut);
    }
    if count < 5 || len - gate < 5 {
        return Ok(Gate::Broken);
    }
    let size = size_of(&bytes);
    if size == 0 {
        return Ok(Gate::Jump);
    }
    if size > (1 << 30) + 64 || gate + 5 + size as u64 >= len {
        return Ok(Gate::Broken);
    }
    Ok(Gate::Entry(size))
}

// The length behind a gate.
pub(crate) fn size_of(bytes: &[u8]) -> u32
    requires { length bytes.now ≡ 5 }
    ensures { result ≡ size_at 1 bytes.now }
{
    u32::from_be_bytes([bytes[1], bytes[2], bytes[3], bytes[4]])
}

// One step of the walk.
fn next_step(place: GatePlace, gate: Gate, head: u64, len: u64) -> GateStep
    requires above { 64 ≤ head }
    requires inside { place.gate < len }
    requires size { 128 ≤ len }
    requires small { len < 2 ^ 63 }
    requires among { IsGateAmong len head place }
    requires fits { FitsIn len place.gate gate }
    ensures leads { (b : List ℕ) → length b ≡ len → IsWalkAt b head place → IsGate b place.gate gate
        → StepLeads b head place result }
    ensures goes { WalkGoesOn len head place result }
{
    match gate {
        Gate::Shut => GateStep::End,
        Gate::Broken => GateStep::Damaged(place.gate),
        Gate::Entry(size) => {
            let next = place.gate + 5 + size as u64;
            if place.jump.is_some() && next >= head {
                return GateStep::Damaged(place.gate);
            }
            GateStep::On(GatePlace {
                jump: place.jump,
                gate: next,
                count: place.count.saturating_add(1),
            })
        }
        Gate::Jump => {
            if place.jump.is_some() {
                return GateStep::Damaged(place.gate);
            }
            if head == 64 {
                return GateStep::Damaged(64);
            }
            GateStep::On(GatePlace {
                jump: Some(place.gate),
                gate: 64,
                count: place.count,
            })
        }
    }
}

// Walks from the head to the end of the list. It reads each gate once.
pub(crate) fn walk_from<D: Disk>(
    disk: &mut D,
    head: u64,
    len: u64,
) -> Result<GatePlace, StoreRefusal>
    requires above { 64 ≤ head }
    requires inside { head < len }
    requires size { 128 ≤ len }
    requires small { len < 2 ^ 63 }
    requires whole { WhereTold (content (D.state disk.old)) (λ b. length b ≡ len) }
    ensures found { IfOk result (λ place. WhereTold (content (D.state disk.old))
        (λ b. IsWalkAt b head place × IsEnd b place.gate)) }
    ensures ordered { IfOk result (λ place. AreGatesOrdered place.jump head place.gate) }
    ensures told { (D.state disk.new).told ≡ (D.state disk.old).told }
    ensures later { (D.state disk.old).faults ≤ (D.state disk.new).faults }
    ensures well { OnOk result ((D.state disk.new).faults ≡ (D.state disk.old).faults) }
    ensures reason { IfErr result (WalkReason (D.state disk.old) (D.state disk.new) head) }
{
    let mut place = GatePlace {
        jump: None,
        gate: head,
        count: 0,
    };
    loop {
        let gate = gate_at(disk, place.gate, len)?;
        match next_step(place, gate, head, len) {
            GateStep::On(next) => place = next,
            GateStep::End => return Ok(place),
            GateStep::Damaged(at) => return Err(StoreRefusal::Damage(at)),
        }
    }
}
