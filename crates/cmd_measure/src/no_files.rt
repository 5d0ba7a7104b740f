// The outputs of a command that writes only its report.

use cmd_cells::{OutputFiles, RunError};
use station_core::Station;

/// No file.
#[derive(Clone, Copy)]
pub(crate) struct NoFiles;

impl<'a, S: Station<'a>> OutputFiles<'a, S> for NoFiles {
    ghost use Rattle.cmd_measure.specs.MeasureCommand.{no_names};

    ghost names = { λ x. no_names };

    fn create(&self, _station: &mut S) -> Result<(), RunError> {
        Ok(())
    }

    fn close(&self, _station: &mut S) -> Result<(), RunError> {
        Ok(())
    }
}
