// When a command has no place for a node. Nothing runs.
ghost use Rattle.lucid_top.specs.Room.{CommandsLackRoom};

use crate::law;
use lucid_top_fit::programs_lack_room;

/// A law: a command answers that a node has no place only if no place has room for it, if the passes keep each node after its reads.
pub fn commands_lack_room()
    ensures { CommandsLackRoom }
{
    law::touches_rise_in_texts();
    programs_lack_room();
}
