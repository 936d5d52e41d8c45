// The law that a dump can be run as a script.

ghost use Rattle.std.specs.Prelude.{◌≡◌, ◌<◌, ◌+◌, ◌⊎◌, ℕ, IsTrue, Some};
ghost use Rattle.std.specs.Prelude.{List, [], ◌∷◌, ◌++◌, map, fold, All};
ghost use Rattle.states.specs.State.{Library, State, empty_state};
ghost use Rattle.store.specs.Opened.{Opened};
ghost use Rattle.store.specs.Opened as store;
ghost use Rattle.requests.specs.Library.{IsLibrary};
ghost use Rattle.requests.specs.Phase.{Phase};
ghost use Rattle.requests.specs.Request.{Request, install};
ghost use Rattle.requests.specs.Step.{Step, accepted, refusal_at};
ghost use Rattle.requests.specs.declared.refusal.Refusal.TheVariants.{Full};
ghost use Rattle.requests.specs.declared.reply.Reply.{Reply};
ghost use Rattle.requests.specs.declared.reply.Reply.TheVariants.{Done};
ghost use Rattle.registry.specs.Opened.{IsAt};
ghost use Rattle.registry.specs.Ran.{RunsOver};
ghost use Rattle.registry.specs.Stands.{Stands};
ghost use Rattle.commands.specs.OnDisk.{DiskScriptEnds};
ghost use Rattle.commands.specs.Script.{Streams};
ghost use Rattle.program_parts.specs.declared.status.Status.TheVariants as status;
ghost use Rattle.tool_commands.specs.Dump.{cut_text, dump_text};
ghost use Rattle.replays.specs.Script.{IsScript};
ghost use Rattle.replays.specs.Replay.{IsStateOfBytes, copy_of, requests_for, sectors_for};
ghost use Rattle.replays.specs.Replay.{IsBehind, LacksRoomAtMost, HasRoomFor, IsFault};

use sector_disk::Disk;

/// Does nothing. Its clauses state the law that a dump can be run as a script, for disks of type
/// `D`.
pub fn dump_replays<D: Disk>()
    // The text is whole lines, which install the libraries in the order of the state and then set
    // the preloads.
    ensures lines { (s : State) → IsStateOfBytes s → IsScript (dump_text s) (requests_for s) }

    // A request that is made after the requests before it can be refused only for lack of room.
    ensures room { (s : State) → IsStateOfBytes s → (front rest : List Request)
        (request : Request) (p : Phase) → requests_for s ≡ front ++ request ∷ rest
        → IsBehind front p → LacksRoomAtMost s p request }

    // If the disk has too few sectors for the state, the last library is refused with S7.
    ensures least { (s : State) → IsStateOfBytes s → (libraries : List Library)
        (last : Library) (p : Phase) → s.libraries ≡ libraries ++ last ∷ []
        → IsBehind (map (λ l. install l.bytes) libraries) p → p.sectors < sectors_for s + p.lone
        → refusal_at p (install last.bytes) ≡ Some Full }

    // If there is room, each request is answered with Done, unless the disk fails or memory is
    // refused.
    ensures answers { (s : State) → IsStateOfBytes s → (front rest : List Request)
        (request : Request) (p p' : Phase) (answer : Reply)
        → requests_for s ≡ front ++ request ∷ rest → IsBehind front p → HasRoomFor s p request
        → Step p request answer p' → (answer ≡ Done) ⊎ IsFault answer }

    // The requests lead to a state with the same libraries, bytes, order and preloads.
    ensures end { (s : State) → IsStateOfBytes s
        → fold accepted empty_state (requests_for s) ≡ copy_of s }

    // If an empty registry answered each request with Done, the registry is at the copy afterwards.
    ensures registry { (s : State) → IsStateOfBytes s → (old new : Opened D)
        (answers : List Reply) → IsAt D.facts old empty_state
        → RunsOver D.facts old new empty_state (requests_for s) answers
        → All (λ answer. answer ≡ Done) answers → IsAt D.facts new (copy_of s) }

    // If a disk held an empty registry, and `script` read the text and ended with status 0, the
    // disk holds the copy.
    ensures program { (s : State) → IsStateOfBytes s → (disk left : D) (io : Streams)
        → IsTrue (D.facts disk).honest → Stands (D.facts disk).now empty_state
        → io.unread ≡ Some (dump_text s)
        → DiskScriptEnds D.facts disk io status.Done left
        → Stands (D.facts left).now (copy_of s) }

    // The script of a dump that was cut doesn't end with status 0.
    ensures cut { (s : State) (k : ℕ) (disk left : D) (io : Streams)
        → io.unread ≡ Some (cut_text s k) → DiskScriptEnds D.facts disk io status.Done left → ⊥ }

    // If a store on a disk is at a state whose files are all libraries, the laws hold for this
    // state.
    ensures states { (opened : Opened D) (s : State) → store.IsAt D.facts opened s
        → All IsLibrary s.libraries → IsStateOfBytes s }
{}
