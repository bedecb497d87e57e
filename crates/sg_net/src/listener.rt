// A listener that slots share.
ghost use Rattle.std.specs.Prelude.{◌≡◌, ◌↔◌, IsTrue, IfOk};
ghost use Rattle.std.specs.Arc.{arc_value};
ghost use Rattle.sg_net.specs.Listener.{IsBoundTo};

use crate::acceptor::Acceptor;
use sg_device::Name;
use sg_file::path_text;
use std::alloc::{AllocError, Global};
use std::io;
use std::net::TcpListener;
use std::sync::Arc;

/// A TCP listener on an address, which doesn't block.
#[derive(Drop)]
pub struct Listener {
    ip: Name,
    port: u16,
    acceptor: Arc<Acceptor>,
}

impl Listener {
    /// Binds the address. The error's kind is OutOfMemory where memory ran out.
    pub fn bind(alloc: Global, rt: HostRuntime, ip: &[u8], port: u16) -> io::Result<Listener>
        ensures { IfOk result (λ listener. IsBoundTo ip.now port listener) }
    {
        let text = path_text(ip)?;
        let socket = TcpListener::bind(&rt, (text, port))?;
        socket.set_nonblocking(true)?;
        let acceptor = Acceptor::new(alloc, rt, socket, ip, port)?;
        Ok(Listener {
            ip: Name::new(alloc, ip)?,
            port,
            acceptor: Arc::new(alloc, acceptor)?,
        })
    }

    /// Whether it is bound to this address.
    pub fn is_on(&self, ip: &[u8], port: u16) -> bool
        ensures { IsTrue result ↔ IsBoundTo ip.now port self.now }
    {
        self.port == port && self.ip.bytes() == ip
    }

    /// The port that the system gave it, which is that of the address where it isn't 0.
    pub fn bound_port(&self) -> io::Result<u16> {
        self.acceptor.port()
    }

    /// What accepts the connections, for a slot.
    pub fn acceptor(&self) -> Result<Arc<Acceptor>, AllocError>
        ensures { IfOk result (λ acceptor. arc_value acceptor ≡ arc_value self.now.acceptor) }
    {
        Arc::try_clone(&self.acceptor)
    }
}
