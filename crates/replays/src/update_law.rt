// The law that one update makes the same registry again from its dump.

ghost use Rattle.std.specs.Prelude.{◌≡◌, ◌≢◌, ◌<◌, ◌+◌, ◌⊎◌, ℕ, IsTrue, Some};
ghost use Rattle.std.specs.Prelude.{List, [], ◌∷◌, ◌++◌, map};
ghost use Rattle.states.specs.State.{Library, State, empty_state};
ghost use Rattle.requests.specs.Phase.{Phase};
ghost use Rattle.requests.specs.Request.{Request, install};
ghost use Rattle.requests.specs.Step.{refusal_at};
ghost use Rattle.requests.specs.declared.refusal.Refusal.TheVariants.{Full};
ghost use Rattle.requests.specs.declared.reply.Reply.{Reply};
ghost use Rattle.requests.specs.declared.reply.Reply.TheVariants.{Done};
ghost use Rattle.registry.specs.Drafting.{DraftStep};
ghost use Rattle.registry.specs.Stands.{Stands};
ghost use Rattle.registry.specs.Updating.{updated};
ghost use Rattle.program_parts.specs.declared.status.Status.{Status};
ghost use Rattle.program_parts.specs.declared.status.Status.TheVariants as status;
ghost use Rattle.tool_commands.specs.Dump.{cut_text, script_text};
ghost use Rattle.tool_commands.specs.declared.form.Purpose.TheVariants.{Update};
ghost use Rattle.updates.specs.Ends.{LeavesStanding, UpdateEnds};
ghost use Rattle.program_parts.specs.Streams.{Streams};
ghost use Rattle.replays.specs.Script.{IsUpdateText};
ghost use Rattle.replays.specs.Replay.{HasRoomFor, IsFault, IsStateOfBytes, LacksRoomAtMost};
ghost use Rattle.replays.specs.Replay.{requests_for, sectors_for};
ghost use Rattle.replays.specs.Update.{IsDraftBehind, IsHindered, LeavesAllOrNothing, renewed};

use sector_disk::Disk;
use std::io::Write;

/// Does nothing. Its clauses state the law that one update makes the same registry again from a
/// dump that was written for an update, for disks of type `D` and outputs of type `O`.
pub fn dump_updates<D: Disk, O: Write>()
    // The text is whole lines, which install the libraries in the order of the state and then set
    // the preloads. The last line is `commit`.
    ensures lines { (s : State) → IsStateOfBytes s
        → IsUpdateText (script_text Update s) (requests_for s) }

    // A request that is planned after the requests before it can be refused only for lack of room.
    ensures room { (s : State) → IsStateOfBytes s → (front rest : List Request)
        (request : Request) (p : Phase) → requests_for s ≡ front ++ request ∷ rest
        → IsDraftBehind front p → LacksRoomAtMost s p request }

    // If the disk has too few sectors for the state, the last library is refused with S7.
    ensures least { (s : State) → IsStateOfBytes s → (libraries : List Library)
        (last : Library) (p : Phase) → s.libraries ≡ libraries ++ last ∷ []
        → IsDraftBehind (map (λ l. install l.bytes) libraries) p
        → p.sectors < sectors_for s + p.lone → refusal_at p (install last.bytes) ≡ Some Full }

    // If there is room, each request is planned, unless the disk fails or memory is refused.
    ensures answers { (s : State) → IsStateOfBytes s → (front rest : List Request)
        (request : Request) (p p' : Phase) (answer : Reply)
        → requests_for s ≡ front ++ request ∷ rest → IsDraftBehind front p
        → HasRoomFor s p request → DraftStep p request answer p'
        → (answer ≡ Done) ⊎ IsFault answer }

    // The requests lead, in one change, to a state with the same libraries, bytes, order and
    // preloads.
    ensures end { (s : State) → IsStateOfBytes s
        → updated empty_state (requests_for s) ≡ renewed s }

    // If a disk held an empty registry, and an update read the text, the update ended with status
    // 0, and the disk holds the same libraries, bytes, order and preloads; or the update ended in a
    // way that `IsHindered` defines.
    ensures program { (s : State) → IsStateOfBytes s → (disk left : D) (io : Streams)
        (ends : Status) → IsTrue (D.facts disk).honest → Stands (D.facts disk).now empty_state
        → io.unread ≡ Some (script_text Update s)
        → UpdateEnds D.facts disk O.contents io ends left
        → ((ends ≡ status.Done) × Stands (D.facts left).now (renewed s))
        ⊎ IsHindered s (D.facts disk).sectors io ends }

    // Even if the update fails, the disk never holds only a part of the state.
    ensures any_moment { (s : State) → IsStateOfBytes s → (disk left : D) (io : Streams)
        (ends : Status) → IsTrue (D.facts disk).honest → Stands (D.facts disk).now empty_state
        → io.unread ≡ Some (script_text Update s)
        → UpdateEnds D.facts disk O.contents io ends left
        → LeavesAllOrNothing D.facts s disk left }

    // A dump that was cut doesn't change the state that a disk holds, and doesn't end with status
    // 0.
    ensures cut { (s : State) (k : ℕ) (disk left : D) (io : Streams) (ends : Status)
        → io.unread ≡ Some (cut_text s k) → UpdateEnds D.facts disk O.contents io ends left
        → (ends ≢ status.Done) × LeavesStanding D.facts disk left }
{}
