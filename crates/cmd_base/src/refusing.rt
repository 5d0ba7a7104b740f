// The end of a refused run.
ghost use Rattle.std.specs.Prelude.{◌≡◌, true, false};
ghost use Rattle.cmd_base.specs.Text.{refusal_text, refusal_status};
ghost use Rattle.cmd_base.specs.Causes.{FlushesOnly, Settles};
ghost use Rattle.cmd_base.specs.Report.{WritesText};

use crate::{CellsRefusal, Refusal, text_of};
use station_core::{OutPort, Station};

/// The refusal of a run whose work has stopped: the outputs are flushed, and if that fails it is a write fault, as that
/// write was given first.
pub fn settle<'a, S: Station<'a>>(refusal: Refusal, station: &mut S) -> Refusal
    ensures others { FlushesOnly (S.meaning station.old) (S.meaning station.new) }
    ensures settles { Settles refusal (S.meaning station.old) (S.meaning station.new) result }
{
    match station.flush() {
        Ok(()) => refusal,
        Err(_) => Refusal::WriteFault,
    }
}

/// Writes the text of a refusal and returns its status, even if the writing fails.
pub fn refuse<'a, S: Station<'a>>(refusal: &Refusal, station: &mut S) -> u8
    requires created { (S.meaning station.old).report.created ≡ true }
    requires report_open { (S.meaning station.old).report.closed ≡ false }
    ensures status { result ≡ refusal_status refusal.now }
    ensures text { WritesText (refusal_text refusal.now) (S.meaning station.old) (S.meaning station.new) }
{
    let text = text_of(refusal);
    let _ = station.write(OutPort::Report, text.as_str().as_bytes());
    match refusal {
        Refusal::Usage => 2,
        Refusal::Settings(_) => 3,
        Refusal::NotSync(_, _) => 4,
        Refusal::ReadFault => 5,
        Refusal::WriteFault => 6,
        Refusal::Memory => 7,
        Refusal::Limit(_) => 8,
        Refusal::Cells(CellsRefusal::Header) => 9,
        Refusal::Cells(CellsRefusal::NoPlace) => 10,
        Refusal::Cells(CellsRefusal::AnnouncedForm) => 11,
    }
}
