// The trait of the outside.
ghost use Rattle.std.specs.Prelude.{◌≡◌, ◌<◌, ◌≤◌, ◌≢◌, ℕ, true, false, [], length, take, None, IfOk, OnOk, OnErr};
ghost use Rattle.std.specs.Prelude.{IsTrue};
ghost use Rattle.station_core.specs.Causes.{Rose, greatest_count};
ghost use Rattle.station_core.specs.Meaning.{Meaning, source_at, sink_at, with_source, with_sink, with_written};
ghost use Rattle.station_core.specs.Meaning.{with_read_faults, with_write_faults, with_close_faults, with_failed_write};
ghost use Rattle.station_core.specs.Meaning.{flushed, asked_source, attached_source, read_source, asked_sink};
ghost use Rattle.station_core.specs.Meaning.{created_sink, written_sink, closed_sink};
ghost use Rattle.station_core.specs.declared.ports.OutPort.TheVariants.{Report};

use crate::{InPort, OutPort};

/// A call on the outside failed, and the station has counted it.
#[derive(Clone, Copy, Debug, PartialEq, Eq)]
pub struct Failed;

/// The outside of a command: the files that it reads and writes, and its report.
///
/// Contracts see a station as its `meaning`: whether its contents are known, the file of each name, each port, whether
/// an output may have pending bytes, and three counts of faults, which never fall and stop at 2^64 - 1: one of `attach`
/// and `read`, one of `create`, `write` and `flush`, one of `close`. Failed writes to Report are also counted
/// separately. A call changes only what its clauses `ok` and `err` name; the rest of the meaning stays. It returns
/// `Failed` only if the count of its kind rose, and no call that returns `Ok` changes a count.
pub trait Station<'a> {
    ghost meaning: { Self → Meaning };

    /// Opens the file of this name for reading at `port`, where no name was requested before.
    ///
    /// If it returns `Failed`, the port is not attached.
    fn attach(&mut self, port: InPort, name: &'a str) -> Result<(), Failed>
        requires { (source_at port (meaning self.old)).asked ≡ None }
        ensures ok { OnOk result (meaning self.new ≡ with_source port (attached_source name.now
            ((meaning self.old).file name.now) (source_at port (meaning self.old))) (meaning self.old)) }
        ensures err { OnErr result (meaning self.new ≡ with_read_faults (meaning self.new).read_faults
            (with_source port (asked_source name.now (source_at port (meaning self.old))) (meaning self.old))) }
        ensures cause { OnErr result (Rose (meaning self.old).read_faults (meaning self.new).read_faults) }
        ensures later { (meaning self.old).read_faults ≤ (meaning self.new).read_faults }
        ensures bounded { OnErr result ((meaning self.new).read_faults ≤ greatest_count) };

    /// Reads some bytes into the start of the buffer, which is not empty; 0 bytes exactly at the end.
    ///
    /// The port is attached. If it returns `Failed`, nothing was read.
    fn read(&mut self, port: InPort, buf: &mut [u8]) -> Result<usize, Failed>
        requires attached { (source_at port (meaning self.old)).attached ≡ true }
        requires room { 0 < length buf.old }
        ensures bound { IfOk result (λ n. n ≤ length buf.new) }
        ensures ok { IfOk result (λ n. meaning self.new ≡ with_source port (read_source n
            (source_at port (meaning self.old))) (meaning self.old)) }
        ensures bytes { IfOk result (λ n. IsTrue (meaning self.old).tells → take n buf.new
            ≡ take n (source_at port (meaning self.old)).left) }
        ensures some { IfOk result (λ n. IsTrue (meaning self.old).tells
            → n ≤ length (source_at port (meaning self.old)).left) }
        ensures end { IfOk result (λ n. IsTrue (meaning self.old).tells → n ≡ 0
            → (source_at port (meaning self.old)).left ≡ []) }
        ensures err { OnErr result (meaning self.new ≡ with_read_faults (meaning self.new).read_faults (meaning
            self.old)) }
        ensures cause { OnErr result (Rose (meaning self.old).read_faults (meaning self.new).read_faults) }
        ensures later { (meaning self.old).read_faults ≤ (meaning self.new).read_faults }
        ensures bounded { OnErr result ((meaning self.new).read_faults ≤ greatest_count) };

    /// Creates a file of this name for writing at `port`: any port but Report, where no name was requested before.
    ///
    /// If it returns `Failed`, the port is not created.
    fn create(&mut self, port: OutPort, name: &'a str) -> Result<(), Failed>
        requires asked { (sink_at port (meaning self.old)).asked ≡ None }
        requires port { port ≢ Report }
        ensures ok { OnOk result (meaning self.new ≡ with_sink port (created_sink name.now
            (sink_at port (meaning self.old))) (meaning self.old)) }
        ensures err { OnErr result (meaning self.new ≡ with_write_faults (meaning self.new).write_faults
            (with_sink port (asked_sink name.now (sink_at port (meaning self.old))) (meaning self.old))) }
        ensures cause { OnErr result (Rose (meaning self.old).write_faults (meaning self.new).write_faults) }
        ensures later { (meaning self.old).write_faults ≤ (meaning self.new).write_faults }
        ensures bounded { OnErr result ((meaning self.new).write_faults ≤ greatest_count) };

    /// Appends the bytes: all of them or, if it returns `Failed`, a prefix.
    ///
    /// The port is created and not closed, and there are bytes to write. At an output they may stay pending, and a
    /// fault of its file unreported, until `flush` or `close`.
    fn write(&mut self, port: OutPort, bytes: &[u8]) -> Result<(), Failed>
        requires created { (sink_at port (meaning self.old)).created ≡ true }
        requires open { (sink_at port (meaning self.old)).closed ≡ false }
        requires some { 0 < length bytes.now }
        ensures ok { OnOk result (meaning self.new ≡ with_written port (written_sink (meaning self.old).tells bytes.now
            (sink_at port (meaning self.old))) (meaning self.old)) }
        ensures err { OnErr result ((n : ℕ) × (meaning self.new ≡ with_failed_write port (meaning self.new).write_faults
            (meaning self.new).report_faults
            (with_written port (written_sink (meaning self.old).tells (take n bytes.now)
            (sink_at port (meaning self.old))) (meaning self.old)))) }
        ensures cause { OnErr result (Rose (meaning self.old).write_faults (meaning self.new).write_faults) }
        ensures at_report { OnErr result (port ≡ Report → Rose (meaning self.old).report_faults
            (meaning self.new).report_faults) }
        ensures later { (meaning self.old).write_faults ≤ (meaning self.new).write_faults }
        ensures later_report { (meaning self.old).report_faults ≤ (meaning self.new).report_faults }
        ensures bounded { OnErr result ((meaning self.new).write_faults ≤ greatest_count) };

    /// Passes the pending bytes of all outputs to their files. It returns `Failed` if a write to one of the files
    /// failed, including earlier failures not yet reported.
    fn flush(&mut self) -> Result<(), Failed>
        ensures ok { OnOk result (meaning self.new ≡ flushed (meaning self.old)) }
        ensures err { OnErr result (meaning self.new ≡ with_write_faults (meaning self.new).write_faults (meaning
            self.old)) }
        ensures cause { OnErr result (Rose (meaning self.old).write_faults (meaning self.new).write_faults) }
        ensures later { (meaning self.old).write_faults ≤ (meaning self.new).write_faults }
        ensures bounded { OnErr result ((meaning self.new).write_faults ≤ greatest_count) };

    /// Ends the writing. The port is created and not closed; it is closed afterwards even if `Failed` is returned.
    fn close(&mut self, port: OutPort) -> Result<(), Failed>
        requires created { (sink_at port (meaning self.old)).created ≡ true }
        requires open { (sink_at port (meaning self.old)).closed ≡ false }
        ensures ok { OnOk result (meaning self.new ≡ with_sink port (closed_sink (sink_at port (meaning self.old)))
            (meaning self.old)) }
        ensures err { OnErr result (meaning self.new ≡ with_close_faults (meaning self.new).close_faults
            (with_sink port (closed_sink (sink_at port (meaning self.old))) (meaning self.old))) }
        ensures cause { OnErr result (Rose (meaning self.old).close_faults (meaning self.new).close_faults) }
        ensures later { (meaning self.old).close_faults ≤ (meaning self.new).close_faults }
        ensures bounded { OnErr result ((meaning self.new).close_faults ≤ greatest_count) };
}
