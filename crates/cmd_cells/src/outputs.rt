// The outputs of a command that reads cells.
ghost use Rattle.std.specs.Prelude.{◌≡◌, Option, Some, true, false, is_some};
ghost use Rattle.std.specs.Option.{option_copied};
ghost use Rattle.cmd_cells.specs.Stops.{HasCause, HasCloseCause};
ghost use Rattle.cmd_cells.specs.Work.{AreOpen};
ghost use Rattle.cmd_cells.specs.Outputs.{AreClosed, AreUntouched, ClosesLp, IsWriting, Makes, Names, cell_names};
ghost use Rattle.cmd_cells.specs.Outputs.{stream_names};

use crate::run_error::RunError;
use station_core::{OutPort as Port, Station};

/// The files that a command writes in addition to its report.
pub trait OutputFiles<'a, S: Station<'a>> {
    /// The name of the file at each port, if any.
    ghost names: { Self → Names };

    /// Creates them all, HP before LP. If one cannot be created, the earlier ones are closed again.
    fn create(&self, station: &mut S) -> Result<(), RunError>
        requires untouched { AreUntouched (names self.now) (S.meaning station.old) }
        ensures cause { HasCause (S.meaning station.old) (S.meaning station.new) result }
        ensures makes { Makes (names self.now) (S.meaning station.old) (S.meaning station.new) result };

    /// Closes them all, even if one could not be closed cleanly.
    fn close(&self, station: &mut S) -> Result<(), RunError>
        requires open { AreOpen (λ port. is_some (names self.now port)) (S.meaning station.old) }
        ensures cause { HasCloseCause (S.meaning station.old) (S.meaning station.new) result }
        ensures kind { IsWriting result }
        ensures closes { AreClosed (names self.now) (S.meaning station.old) (S.meaning station.new) };
}

/// The names of the files of a command that receives cells. Its outputs are a transport file for each stream: HP and,
/// with two streams, LP.
#[derive(Clone, Copy)]
pub struct ReceptionFiles<'a> {
    /// The file of cells to read.
    pub cells: &'a str,
    /// The transport file to create, of high priority or the only one.
    pub hp: &'a str,
    /// The transport file of low priority to create, if there is one.
    pub lp: Option<&'a str>,
}

/// One file of cells.
#[derive(Clone, Copy)]
pub struct CellFile<'a> {
    /// Its name.
    pub name: &'a str,
}

impl<'a, S: Station<'a>> OutputFiles<'a, S> for CellFile<'a> {
    ghost names = { λ x. cell_names x.name.now };

    fn create(&self, station: &mut S) -> Result<(), RunError> {
        match station.create(Port::Cells, self.name) {
            Ok(()) => Ok(()),
            Err(_) => Err(RunError::WriteFault),
        }
    }

    fn close(&self, station: &mut S) -> Result<(), RunError> {
        match station.close(Port::Cells) {
            Ok(()) => Ok(()),
            Err(_) => Err(RunError::WriteFault),
        }
    }
}

impl<'a, S: Station<'a>> OutputFiles<'a, S> for ReceptionFiles<'a> {
    ghost names = { λ x. stream_names x.hp.now (option_copied x.lp) };

    fn create(&self, station: &mut S) -> Result<(), RunError> {
        match station.create(Port::Hp, self.hp) {
            Ok(()) => {}
            Err(_) => return Err(RunError::WriteFault),
        }
        let Some(lp) = self.lp else {
            return Ok(());
        };
        match station.create(Port::Lp, lp) {
            Ok(()) => Ok(()),
            Err(_) => {
                let _ = station.close(Port::Hp);
                Err(RunError::WriteFault)
            }
        }
    }

    fn close(&self, station: &mut S) -> Result<(), RunError> {
        match station.close(Port::Hp) {
            Ok(()) => close_lp(self.lp, station),
            Err(_) => {
                let _ = close_lp(self.lp, station);
                Err(RunError::WriteFault)
            }
        }
    }
}

// Closes LP, if there are two streams.
fn close_lp<'a, S: Station<'a>>(lp: Option<&'a str>, station: &mut S) -> Result<(), RunError>
    requires made { is_some (option_copied lp) ≡ true → (S.meaning station.old).lp_out.created ≡ true }
    requires open { is_some (option_copied lp) ≡ true → (S.meaning station.old).lp_out.closed ≡ false }
    ensures kind { IsWriting result }
    ensures cause { HasCloseCause (S.meaning station.old) (S.meaning station.new) result }
    ensures closes { ClosesLp (is_some (option_copied lp.entry)) (S.meaning station.old) (S.meaning station.new) }
{
    if lp.is_none() {
        return Ok(());
    }
    match station.close(Port::Lp) {
        Ok(()) => Ok(()),
        Err(_) => Err(RunError::WriteFault),
    }
}
