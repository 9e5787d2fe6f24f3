//! The law of the room of a source, over every legal list of entries.

ghost use Rattle.room_laws.specs.SourceRoom.{HistoriesKeep};

/// The history of a source never has more entries than the calls of the machine have room for, so that it
/// never fills up if it has that room.
#[tactic(auto, using(crate::proofs::SourcesFit::histories_keep))]
pub fn histories_keep_to_their_places()
    ensures { HistoriesKeep }
{}
