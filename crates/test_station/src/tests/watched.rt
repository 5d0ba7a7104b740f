// Stand-ins for the system.
use std::alloc::Allocator;
use std::cell::Cell;
use std::fmt::Display;
use std::fs::{File, Metadata, OpenFile, OpenOptions};
use std::io;
use std::io::{ErrorKind, Read, Seek, SeekFrom, Write};
use std::rt::Files;

/// The files of the system, and a standard output that counts its bytes. Signals interrupt its first writes, and the
/// first reads of each file.
#[derive(Drop)]
pub struct Watched<'a> {
    pub rt: &'a HostRuntime,
    pub signals: Cell<u32>,
    pub printed: Cell<usize>,
}

impl<'a> Watched<'a> {
    /// With this number of signals.
    pub fn new(rt: &'a HostRuntime, signals: u32) -> Watched<'a> {
        Watched {
            rt,
            signals: Cell::new(signals),
            printed: Cell::new(0),
        }
    }
}

impl<'a> Print for Watched<'a> {
    fn print<D: Display + Drop>(&self, value: D) -> io::Result<()> {
        self.rt.print(value)
    }

    fn println<D: Display + Drop>(&self, value: D) -> io::Result<()> {
        self.rt.println(value)
    }

    fn write_all(&self, bytes: &[u8]) -> io::Result<()> {
        self.write_some(bytes)?;
        Ok(())
    }

    fn write_some(&self, bytes: &[u8]) -> io::Result<usize> {
        let signals = self.signals.get();
        if signals > 0 {
            self.signals.set(signals - 1);
            return Err(io::Error::from(ErrorKind::Interrupted));
        }
        self.printed
            .set(self.printed.get().wrapping_add(bytes.len()));
        Ok(bytes.len())
    }
}

impl<'a> Files for Watched<'a> {
    type File = Signalled;

    type Dir = <HostRuntime as Files>::Dir;

    fn open_file(&self, how: &OpenOptions, path: &str) -> io::Result<Signalled> {
        let file = self.rt.open_file(how, path)?;
        Ok(Signalled {
            file,
            signals: self.signals.get(),
        })
    }

    fn open_dir(&self, path: &str) -> io::Result<<HostRuntime as Files>::Dir> {
        self.rt.open_dir(path)
    }

    fn metadata(&self, path: &str) -> io::Result<Metadata> {
        self.rt.metadata(path)
    }

    fn symlink_metadata(&self, path: &str) -> io::Result<Metadata> {
        self.rt.symlink_metadata(path)
    }

    fn copy(&self, from: &str, to: &str) -> io::Result<u64> {
        self.rt.copy(from, to)
    }

    fn rename(&self, from: &str, to: &str) -> io::Result<()> {
        self.rt.rename(from, to)
    }

    fn remove_file(&self, path: &str) -> io::Result<()> {
        self.rt.remove_file(path)
    }

    fn create_dir(&self, path: &str) -> io::Result<()> {
        self.rt.create_dir(path)
    }

    fn remove_dir(&self, path: &str) -> io::Result<()> {
        self.rt.remove_dir(path)
    }

    fn remove_dir_all<B: Allocator>(&self, alloc: B, path: &str) -> io::Result<()> {
        self.rt.remove_dir_all(alloc, path)
    }
}

/// A file of the system, whose first reads signals interrupt.
#[derive(Drop)]
pub struct Signalled {
    file: File,
    signals: u32,
}

impl Read for Signalled {
    fn read(&mut self, buf: &mut [u8]) -> io::Result<usize> {
        if self.signals > 0 {
            self.signals -= 1;
            return Err(io::Error::from(ErrorKind::Interrupted));
        }
        self.file.read(buf)
    }
}

impl Write for Signalled {
    fn write(&mut self, bytes: &[u8]) -> io::Result<usize> {
        self.file.write(bytes)
    }

    fn flush(&mut self) -> io::Result<()> {
        self.file.flush()
    }
}

impl Seek for Signalled {
    fn seek(&mut self, to: SeekFrom) -> io::Result<u64> {
        self.file.seek(to)
    }
}

impl OpenFile for Signalled {
    fn metadata(&self) -> io::Result<Metadata> {
        self.file.metadata()
    }

    fn set_len(&self, size: u64) -> io::Result<()> {
        self.file.set_len(size)
    }

    fn sync_all(&self) -> io::Result<()> {
        self.file.sync_all()
    }

    fn sync_data(&self) -> io::Result<()> {
        self.file.sync_data()
    }
}
