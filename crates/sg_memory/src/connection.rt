// Connections that peers make to a machine in memory.
ghost use Rattle.std.specs.Prelude.{◌≡◌, [], ◌∷◌, ◌++◌, map, IfOk, OnOk};
ghost use Rattle.sg_memory.specs.Connections.{made_to, sent};

use crate::MemoryPart;
use sg_device::{Name, NoMemory};
use std::alloc::Global;
use std::collections::VecDeque;

/// A connection to one of the slots on an address, its peer, and the bytes that come over it.
#[derive(Drop)]
pub struct MemoryConnection {
    pub ip: Name,
    pub port: u16,
    pub slot: u16,
    pub peer: Name,
    pub bytes: Vec<u8>,
}

impl MemoryConnection {
    /// A connection to slot 0.
    pub fn new(
        alloc: Global,
        ip: &[u8],
        port: u16,
        peer: &[u8],
        bytes: &[u8],
    ) -> Result<MemoryConnection, NoMemory>
        ensures address { IfOk result (λ connection. (connection.ip ≡ ip.now)
            × (connection.port ≡ port) × (connection.slot ≡ 0)) }
        ensures sent { IfOk result
            (λ connection. (connection.peer ≡ peer.now) × (connection.bytes.items ≡ bytes.now)) }
    {
        Ok(MemoryConnection {
            ip: Name::new(alloc, ip)?,
            port,
            slot: 0,
            peer: Name::new(alloc, peer)?,
            bytes: bytes.to_vec(alloc)?,
        })
    }
}

/// What is sent over the connections to a slot, in order.
pub fn parts_for(
    alloc: Global,
    connections: &[MemoryConnection],
    ip: &Name,
    port: u16,
    slot: u16,
) -> Result<VecDeque<MemoryPart>, NoMemory>
    ensures { IfOk result
        (λ parts. map sent parts.items ≡ made_to ip.now port slot connections.now) }
{
    let mut parts = VecDeque::new(alloc);
    for connection in connections {
        let same = connection.port == port && connection.slot == slot;
        if same && connection.ip.bytes() == ip.bytes() {
            add_part(alloc, &mut parts, connection)?;
        }
    }
    Ok(parts)
}

fn add_part(
    alloc: Global,
    parts: &mut VecDeque<MemoryPart>,
    connection: &MemoryConnection,
) -> Result<(), NoMemory>
    ensures { OnOk result (map sent parts.new.items
        ≡ map sent parts.old.items ++ (connection.now.peer, connection.now.bytes.items) ∷ []) }
{
    let bytes = connection.bytes.to_vec(alloc)?;
    parts.push_back(MemoryPart::new(alloc, connection.peer.bytes(), bytes)?)?;
    Ok(())
}
