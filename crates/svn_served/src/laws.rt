//! What holds of connections.
ghost use Rattle.svn_served.specs.Connection.{ReportsAreDriven};

/// What is written after a report is the image of the drive of that report; or of its first calls, and a failure where a stop was asked for; or why there is
/// none.
pub fn reports_are_driven()
    ensures { ReportsAreDriven }
{}
