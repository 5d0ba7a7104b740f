// Opening and creating the files of the ports.
ghost use Rattle.std.specs.Prelude.{◌≡◌, [], OnOk, OnErr};
ghost use Rattle.station_core.specs.Meaning.{attached_source, asked_source, created_sink, asked_sink};
ghost use Rattle.station_files.specs.Ports.{source_of, sink_of};
ghost use Rattle.station_files.specs.Waiting.{IsSettled};

use crate::reading::FileReading;
use crate::writing::FileWriting;
use station_core::Failed;
use std::fs::{self, Metadata, OpenFile, OpenOptions};
use std::os::unix::fs::{FileTypeExt, MetadataExt};
use std::rt::Files;

/// Opens the file of one port.
pub fn attach_at<'a, R: Files>(
    rt: &R,
    reading: &mut FileReading<'a, R::File>,
    name: &'a str,
) -> Result<(), Failed>
    ensures done { OnOk result (source_of reading.new ≡ attached_source name.now [] (source_of reading.old)) }
    ensures not_done { OnErr result (source_of reading.new ≡ asked_source name.now (source_of reading.old)) }
{
    reading.asked = Some(name);
    match fs::open(rt, name) {
        Ok(file) => {
            reading.file = Some(file);
            Ok(())
        }
        Err(_) => Err(Failed),
    }
}

/// Opens a file for writing, and creates it if it does not exist. Its contents are kept.
pub fn open_to_write<R: Files>(rt: &R, name: &str) -> Result<R::File, Failed> {
    match OpenOptions::new().write(true).create(true).open(rt, name) {
        Ok(file) => Ok(file),
        Err(_) => Err(Failed),
    }
}

/// The metadata of an open file.
pub fn metadata_of<F: OpenFile>(file: &F) -> Result<Metadata, Failed> {
    match file.metadata() {
        Ok(metadata) => Ok(metadata),
        Err(_) => Err(Failed),
    }
}

/// Whether this is the file of a port. A character device such as a terminal may be read and written at once, so it
/// never is.
pub fn is_same<F: OpenFile>(open: &Option<F>, other: &Metadata) -> bool {
    let Some(file) = open else {
        return false;
    };
    match file.metadata() {
        Ok(own) => {
            own.dev() == other.dev()
                && own.ino() == other.ino()
                && !own.file_type().is_char_device()
        }
        Err(_) => true,
    }
}

/// Truncates a file to be written. A pipe or a device has nothing to truncate.
pub fn empty<F: OpenFile>(file: &F, metadata: &Metadata) -> Result<(), Failed> {
    if !metadata.is_file() {
        return Ok(());
    }
    match file.set_len(0) {
        Ok(()) => Ok(()),
        Err(_) => Err(Failed),
    }
}

/// Attaches the created file to its port, if creation succeeded.
pub fn create_at<'a, F: Drop>(
    writing: &mut FileWriting<'a, F>,
    name: &'a str,
    made: Result<F, Failed>,
) -> Result<(), Failed>
    ensures done { OnOk result (sink_of writing.new ≡ created_sink name.now (sink_of writing.old)) }
    ensures not_done { OnErr result (sink_of writing.new ≡ asked_sink name.now (sink_of writing.old)) }
    ensures settled { IsSettled writing.old → IsSettled writing.new }
{
    writing.asked = Some(name);
    match made {
        Ok(file) => {
            writing.file = Some(file);
            writing.created = true;
            writing.closed = false;
            Ok(())
        }
        Err(_) => Err(Failed),
    }
}
