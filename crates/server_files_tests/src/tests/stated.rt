//! Files that state which bytes they give, as files of the disk don't. Of these `disk_files` proves that their bytes are published.
use cog_server::Server;
use disk_files::{Watched, read_file};
use std::alloc::Global;
use std::cell::Cell;
use std::fs::{Metadata, OpenFile, OpenOptions};
use std::io::{Read, Seek, SeekFrom, Write};
use std::rt::{Clock, Files};
use std::test::Fail;
use std::time::Duration;
use std::{fs, io};

const PATH: &str = "served_files_tests_stated";

/// A file whose bytes are in memory. What the disk says of it is said of a file of the disk.
#[derive(Drop)]
struct StatedFile<'b, F> {
    on_disk: F,
    rest: &'b [u8],
}

impl<F> Read for StatedFile<'_, F> {
    ghost use Rattle.std.specs.Prelude.{Some};

    ghost remaining = { λ file. Some file.rest.now };

    fn read(&mut self, out: &mut [u8]) -> io::Result<usize> {
        self.rest.read(out)
    }
}

impl<F: Write> Write for StatedFile<'_, F> {
    fn write(&mut self, bytes: &[u8]) -> io::Result<usize> {
        self.on_disk.write(bytes)
    }

    fn flush(&mut self) -> io::Result<()> {
        self.on_disk.flush()
    }
}

impl<F: Seek> Seek for StatedFile<'_, F> {
    fn seek(&mut self, to: SeekFrom) -> io::Result<u64> {
        self.on_disk.seek(to)
    }
}

impl<F: OpenFile> OpenFile for StatedFile<'_, F> {
    fn metadata(&self) -> io::Result<Metadata> {
        self.on_disk.metadata()
    }

    fn set_len(&self, size: u64) -> io::Result<()> {
        self.on_disk.set_len(size)
    }

    fn sync_all(&self) -> io::Result<()> {
        self.on_disk.sync_all()
    }

    fn sync_data(&self) -> io::Result<()> {
        self.on_disk.sync_data()
    }
}

/// A runtime whose files give `bytes`, whatever the disk has.
#[derive(Drop)]
struct Stating<'b, R> {
    rt: &'b R,
    bytes: Cell<&'b [u8]>,
}

impl<R: Clock> Clock for Stating<'_, R> {
    fn monotonic(&self) -> io::Result<Duration> {
        self.rt.monotonic()
    }

    fn since_1970(&self) -> io::Result<Duration> {
        self.rt.since_1970()
    }
}

impl<R: AllocGlobal> Alloc for Stating<'_, R> {
    type A = Global;

    fn alloc(&self) -> Global {
        self.rt.alloc()
    }
}

impl<'b, R: Files> Files for Stating<'b, R> {
    type File = StatedFile<'b, R::File>;

    type Dir = R::Dir;

    fn open_file(&self, how: &OpenOptions, path: &str) -> io::Result<StatedFile<'b, R::File>> {
        let on_disk = self.rt.open_file(how, path)?;
        let rest = self.bytes.get();
        Ok(StatedFile { on_disk, rest })
    }

    fn open_dir(&self, path: &str) -> io::Result<R::Dir> {
        self.rt.open_dir(path)
    }

    fn metadata(&self, path: &str) -> io::Result<Metadata> {
        self.rt.metadata(path)
    }

    fn symlink_metadata(&self, path: &str) -> io::Result<Metadata> {
        self.rt.symlink_metadata(path)
    }

    fn copy(&self, from: &str, to: &str) -> io::Result<u64> {
        self.rt.copy(from, to)
    }

    fn rename(&self, from: &str, to: &str) -> io::Result<()> {
        self.rt.rename(from, to)
    }

    fn remove_file(&self, path: &str) -> io::Result<()> {
        self.rt.remove_file(path)
    }

    fn create_dir(&self, path: &str) -> io::Result<()> {
        self.rt.create_dir(path)
    }

    fn remove_dir(&self, path: &str) -> io::Result<()> {
        self.rt.remove_dir(path)
    }

    fn remove_dir_all<B: std::alloc::Allocator>(&self, alloc: B, path: &str) -> io::Result<()> {
        self.rt.remove_dir_all(alloc, path)
    }
}

/// Publishes a file, then other bytes of it, and then the same ones.
#[test]
fn publishes_what_a_file_states(rt: HostRuntime) -> Result<(), Fail> {
    fs::write(&rt, PATH, b"on the disk")?;
    let stating = Stating {
        rt: &rt,
        bytes: Cell::new(b"in memory"),
    };
    assert!(rt;
        matches!(read_file(&stating, PATH), Ok(bytes) if bytes.as_slice() == b"in memory".as_slice())
    );
    let mut server = Server::new(rt.alloc(), 7);
    let mut watched = Watched::new("a", PATH);
    assert!(rt; watched.publish(&stating, &mut server).is_ok());
    assert!(rt; server.file(b"a") == Some(b"in memory"));
    stating.bytes.set(b"other bytes");
    let other = watched.publish_changed(&stating, &mut server, 0);
    assert!(rt; matches!(other, Ok(Some(_))));
    assert!(rt; server.file(b"a") == Some(b"other bytes"));
    let same = watched.publish_changed(&stating, &mut server, 0);
    assert!(rt; matches!(same, Ok(None)));
    fs::remove_file(&rt, PATH)?;
    Ok(())
}
