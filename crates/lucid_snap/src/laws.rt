// Laws of snapshots. They do nothing when they run.
ghost use Rattle.lucid_snap.specs.Calls.{EnterKeeps};

/// An event that enters keeps that a snapshot follows.
pub fn enter_keeps()
    ensures { EnterKeeps }
{}
