//! A network that notes why the last connection wasn't made.
ghost use Rattle.std.specs.Prelude.{◌≤◌, length, IfOk};

use std::alloc::Global;
use std::cell::Cell;
use std::io;
use std::net::{Net, SocketAddr};

/// Passes calls on to the network of a runtime, and notes why the last connection wasn't made.
#[derive(Drop)]
pub struct NotedNet<'r, R> {
    rt: &'r R,
    refusal: Cell<Option<io::Error>>,
}

impl<'r, R> NotedNet<'r, R> {
    /// Makes one over the network of `rt`, before the first connection.
    pub fn new(rt: &'r R) -> Self {
        NotedNet {
            rt,
            refusal: Cell::new(None),
        }
    }

    /// Returns the error of the last connection or look-up of a host, or `None` where it succeeded.
    pub fn refusal(&self) -> Option<io::Error> {
        self.refusal.get()
    }
}

impl<R: AllocGlobal> Alloc for NotedNet<'_, R> {
    type A = Global;

    fn alloc(&self) -> Global {
        self.rt.alloc()
    }
}

/// Returns the error, if there is one.
fn error_of<T>(made: &io::Result<T>) -> Option<io::Error> {
    match made {
        Ok(_) => None,
        Err(error) => Some(*error),
    }
}

impl<R: Net> Net for NotedNet<'_, R> {
    type Stream = R::Stream;

    type Listener = R::Listener;

    fn bind(&self, addr: SocketAddr) -> io::Result<R::Listener> {
        self.rt.bind(addr)
    }

    fn connect(&self, addr: SocketAddr) -> io::Result<R::Stream> {
        let made = self.rt.connect(addr);
        self.refusal.set(error_of(&made));
        made
    }

    fn lookup_host(&self, host: &str, port: u16, found: &mut [SocketAddr]) -> io::Result<usize>
        ensures in_bounds { IfOk result (λ n. n ≤ length found.new) }
    {
        let count = self.rt.lookup_host(host, port, found);
        self.refusal.set(error_of(&count));
        count
    }
}
