//! Laws about pristine texts.
ghost use Rattle.svn_disk_audit.specs.Pristine.{StandInsStay};

/// Where texts are kept as stand-ins, an audit's nodes are those of the database.
pub fn stand_ins_stay()
    ensures { StandInsStay }
{}
