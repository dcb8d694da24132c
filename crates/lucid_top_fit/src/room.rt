// When first fit refuses a node of a program. Nothing runs.
ghost use Rattle.lucid_top_fit.specs.Room.{ProgramsLackRoom};

use crate::law;

/// A law: first fit refuses a node of a valid and accepted program only if no place has room for it, if the passes keep each node after its
/// reads.
pub fn programs_lack_room()
    ensures { ProgramsLackRoom }
{
    law::lists_keep_the_laws();
    law::stuck_for_room();
}
