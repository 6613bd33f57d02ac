//! A runtime that keeps what is printed.
ghost use Rattle.std.specs.Prelude.{◌≤◌, length, IfOk};

use std::alloc::{Allocator, Global};
use std::cell::RefCell;
use std::fmt::Display;
use std::fs::{Metadata, OpenOptions};
use std::io;
use std::net::{Net, SocketAddr};
use std::rt::{Clock, Files};
use std::time::Duration;

/// A runtime that keeps standard output and standard error in memory, or has them closed. All else is that of another runtime.
#[derive(Drop)]
pub struct Capture<'r, R> {
    rt: &'r R,
    out: RefCell<Vec<u8>>,
    err: RefCell<Vec<u8>>,
    is_closed: bool,
}

/// Keeps what is printed.
fn keep(kept: &RefCell<Vec<u8>>, bytes: &[u8]) -> io::Result<()> {
    match kept.try_borrow_mut() {
        Ok(mut kept) => Ok(kept.extend_from_slice(bytes)?),
        Err(_) => Err(io::Error::from(io::ErrorKind::Other)),
    }
}

impl<'r, R: AllocGlobal> Capture<'r, R> {
    /// Makes a capture with nothing in it.
    pub fn new(rt: &'r R) -> Self {
        Capture {
            rt,
            out: RefCell::new(Vec::new(rt.alloc())),
            err: RefCell::new(Vec::new(rt.alloc())),
            is_closed: false,
        }
    }

    /// Makes a capture whose standard output is closed.
    pub fn closed(rt: &'r R) -> Self {
        Capture {
            is_closed: true,
            ..Capture::new(rt)
        }
    }

    /// Returns what was printed on standard output and on standard error.
    pub fn into_texts(self) -> (Vec<u8>, Vec<u8>) {
        (self.out.into_inner(), self.err.into_inner())
    }
}

impl<R: AllocGlobal> Print for Capture<'_, R> {
    fn print<D: Display + Drop>(&self, value: D) -> io::Result<()> {
        let text = format!(in self.rt.alloc(); "{value}")?;
        self.write_all(text.as_bytes())
    }

    fn println<D: Display + Drop>(&self, value: D) -> io::Result<()> {
        let text = format!(in self.rt.alloc(); "{value}\n")?;
        self.write_all(text.as_bytes())
    }

    fn write_all(&self, bytes: &[u8]) -> io::Result<()> {
        if self.is_closed {
            return Err(io::Error::from(io::ErrorKind::StorageFull));
        }
        keep(&self.out, bytes)
    }
}

impl<R: AllocGlobal> Eprint for Capture<'_, R> {
    fn eprint<D: Display + Drop>(&self, value: D) -> io::Result<()> {
        let text = format!(in self.rt.alloc(); "{value}")?;
        keep(&self.err, text.as_bytes())
    }

    fn eprintln<D: Display + Drop>(&self, value: D) -> io::Result<()> {
        let text = format!(in self.rt.alloc(); "{value}\n")?;
        keep(&self.err, text.as_bytes())
    }
}

impl<R: AllocGlobal> Alloc for Capture<'_, R> {
    type A = Global;

    fn alloc(&self) -> Global {
        self.rt.alloc()
    }
}

impl<R: Clock> Clock for Capture<'_, R> {
    fn monotonic(&self) -> io::Result<Duration> {
        self.rt.monotonic()
    }

    fn since_1970(&self) -> io::Result<Duration> {
        self.rt.since_1970()
    }
}

impl<R: Files> Files for Capture<'_, R> {
    type File = R::File;

    type Dir = R::Dir;

    fn open_file(&self, how: &OpenOptions, path: &str) -> io::Result<R::File> {
        self.rt.open_file(how, path)
    }

    fn open_dir(&self, path: &str) -> io::Result<R::Dir> {
        self.rt.open_dir(path)
    }

    fn metadata(&self, path: &str) -> io::Result<Metadata> {
        self.rt.metadata(path)
    }

    fn symlink_metadata(&self, path: &str) -> io::Result<Metadata> {
        self.rt.symlink_metadata(path)
    }

    fn copy(&self, from: &str, to: &str) -> io::Result<u64> {
        self.rt.copy(from, to)
    }

    fn rename(&self, from: &str, to: &str) -> io::Result<()> {
        self.rt.rename(from, to)
    }

    fn remove_file(&self, path: &str) -> io::Result<()> {
        self.rt.remove_file(path)
    }

    fn create_dir(&self, path: &str) -> io::Result<()> {
        self.rt.create_dir(path)
    }

    fn remove_dir(&self, path: &str) -> io::Result<()> {
        self.rt.remove_dir(path)
    }

    fn remove_dir_all<B: Allocator>(&self, alloc: B, path: &str) -> io::Result<()> {
        self.rt.remove_dir_all(alloc, path)
    }
}

impl<R: Net> Net for Capture<'_, R> {
    type Stream = R::Stream;

    type Listener = R::Listener;

    fn bind(&self, addr: SocketAddr) -> io::Result<R::Listener> {
        self.rt.bind(addr)
    }

    fn connect(&self, addr: SocketAddr) -> io::Result<R::Stream> {
        self.rt.connect(addr)
    }

    fn lookup_host(&self, host: &str, port: u16, found: &mut [SocketAddr]) -> io::Result<usize>
        ensures in_bounds { IfOk result (λ n. n ≤ length found.new) }
    {
        self.rt.lookup_host(host, port, found)
    }
}
