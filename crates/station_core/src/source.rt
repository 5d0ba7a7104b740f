// An input port of a station in memory, and the files that it reads.
ghost use Rattle.std.specs.Prelude.{◌≡◌, ◌≤◌, ◌<◌, ◌↔◌, ◌⊎◌, min, length, take, is_some, true, false, IfSome, IsNone};
ghost use Rattle.std.specs.Prelude.{OnOk, OnErr, IsTrue, IsErr};
ghost use Rattle.station_core.specs.Counted.{CountsFault};
ghost use Rattle.station_core.specs.Files.{Files, content_at, found, has_file};

use crate::Failed;
use crate::sink::count_fault;

// An input port.
#[derive(Drop)]
pub struct Reading<'a> {
    pub asked: Option<&'a str>,
    // the index of the file in the list
    pub file: Option<usize>,
    // the bytes read so far
    pub at: usize,
}

// The bytes of a file.
pub fn content(files: &[(String, Vec<u8>)], file: usize) -> &[u8]
    ensures { result.now ≡ content_at files.now file }
{
    match files.get(file) {
        Some(found) => &found.1,
        None => &[],
    }
}

// The index of the first file of that name.
pub fn find_file(files: &[(String, Vec<u8>)], name: &str) -> Option<usize>
    ensures found { IfSome result (λ i. content_at files.now i ≡ found files.now name.now) }
    ensures none { IsNone result ↔ (has_file files.now name.now ≡ false) }
{
    for (i, file) in files.iter().enumerate() {
        if file.0.as_str() == name {
            return Some(i);
        }
    }
    None
}

// Copies from the start of what is left, and returns the number of bytes.
pub fn copy_front(left: &[u8], most: usize, buf: &mut [u8]) -> usize
    ensures count { result ≡ min (min most (length buf.old)) (length left.now) }
    ensures bytes { take result buf.new ≡ take result left.now }
{
    let count = most.min(buf.len()).min(left.len());
    buf[..count].copy_from_slice(&left[..count]);
    count
}

impl<'a> Reading<'a> {
    ghost use Rattle.station_core.specs.Meaning.{attached_source, asked_source, no_source};
    ghost use Rattle.station_core.specs.Sources.{source_of, Reads, ReadsOrFails};
    ghost use Rattle.station_core.specs.Files.{Files, found, has_file};
    ghost use Rattle.std.specs.Prelude.{
      ◌≡◌,
      ◌≤◌,
      ◌<◌,
      ◌↔◌,
      ◌⊎◌,
      length,
      is_some,
      true,
      false,
      OnOk,
      OnErr,
      IsTrue,
      IsErr,
    };
    ghost use Rattle.station_core.specs.Counted.{CountsFault};

    // A port where no name was requested.
    pub fn new() -> Reading<'a>
        ensures { (fs : Files) → source_of fs result ≡ no_source }
    {
        Reading {
            asked: None,
            file: None,
            at: 0,
        }
    }

    // Opens the first file of the name, or fails if there is none or if set to.
    pub fn attach(
        &mut self,
        files: &[(String, Vec<u8>)],
        fails: bool,
        name: &'a str,
        faults: &mut u64,
    ) -> Result<(), Failed>
        ensures ok { OnOk result (source_of files.now self.new
            ≡ attached_source name.now (found files.now name.now) (source_of files.now self.old)) }
        ensures err { OnErr result (source_of files.now self.new
            ≡ asked_source name.now (source_of files.now self.old)) }
        ensures exact { IsErr result ↔ (IsTrue fails ⊎ (has_file files.now name.now ≡ false)) }
        ensures counts { CountsFault result faults.old faults.new }
    {
        self.asked = Some(name);
        if fails {
            return Err(count_fault(faults));
        }
        match find_file(files, name) {
            Some(file) => {
                self.file = Some(file);
                self.at = 0;
                Ok(())
            }
            None => Err(count_fault(faults)),
        }
    }

    // Reads from an open file: as much as fits the buffer, at most `most` bytes.
    fn read_open(&mut self, files: &[(String, Vec<u8>)], most: usize, buf: &mut [u8]) -> usize
        requires some { 1 ≤ most }
        requires room { 0 < length buf.old }
        requires attached { is_some self.old.file ≡ true }
        ensures { Reads files.now most self.old self.new result buf.new }
    {
        let Some(file) = self.file else {
            return 0;
        };
        let bytes = content(files, file);
        if self.at >= bytes.len() {
            return 0;
        }
        let count = copy_front(&bytes[self.at..], most, buf);
        self.at += count;
        count
    }

    // Reads from the open file, or fails if set to.
    pub fn read(
        &mut self,
        files: &[(String, Vec<u8>)],
        fails: bool,
        most: usize,
        buf: &mut [u8],
        faults: &mut u64,
    ) -> Result<usize, Failed>
        requires some { 1 ≤ most }
        requires room { 0 < length buf.old }
        requires attached { is_some self.old.file ≡ true }
        ensures reads { ReadsOrFails files.now most self.old self.new result buf.new }
        ensures exact { IsErr result ↔ IsTrue fails }
        ensures counts { CountsFault result faults.old faults.new }
    {
        if fails {
            return Err(count_fault(faults));
        }
        Ok(self.read_open(files, most, buf))
    }
}
