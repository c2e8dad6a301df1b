//! Replays of scans, worked out by hand. Each function is a law and does nothing.

ghost use Rattle.layout_model.specs.WorkedScans.{GapsEndWithLanes, LanesAddProbes, ScansAddProbes, ScansMeanwhile};

/// Scans pass over what was removed, and go on through the new buffer.
pub fn scans_meanwhile()
    ensures { ScansMeanwhile }
{}

/// A gap ends with the lane from which it is sought.
pub fn gaps_end_with_lanes()
    ensures { GapsEndWithLanes }
{}

/// A scan locates the key of each of its answers.
pub fn scans_add_probes()
    ensures { ScansAddProbes }
{}

/// A scan has one answer more where a lane without pairs begins.
pub fn lanes_add_probes()
    ensures { LanesAddProbes }
{}
