//! A law of the definitions.

ghost use Rattle.reg_app.specs.Serving.{PeriodsAreRuns};

use crate::reload::Reload;
use reg_desk::laws::steps_are_a_run;
use reg_store::Keep;

/// While connections are served, what is answered between two reloads is a run of the reference model.
pub fn periods_are_runs<'w, K: Keep, L, R: Reload<'w, L>>()
    ensures { PeriodsAreRuns K.Keep R.looks }
{
    steps_are_a_run::<K>();
}
