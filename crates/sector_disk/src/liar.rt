// A disk that isn't honest.
ghost use Rattle.std.specs.Prelude.{◌≡◌, ◌<◌, ◌%◌, length};

use crate::call_count::CallCount;
use crate::disk::{Disk, DiskFault, SECTOR_BYTES};
use crate::past::Past;

/// A disk that isn't honest, for tests of the promises for any disk. Its reads return its answers
/// in turn; the number of the sector doesn't matter. After the last answer comes the first one
/// again. If there are no answers, reads return zeros. Writes and syncs succeed and store nothing.
/// No call fails or allocates memory.
#[derive(Drop)]
pub struct Liar {
    sectors: u32,
    answers: Vec<[u8; SECTOR_BYTES]>,
    // The position of the next answer.
    next: usize,
    calls: CallCount,
    // The sectors that were read.
    reads: Past<u32>,
    ghost in_turn: { 0 < length answers.items
        → next ≡ length reads.items % length answers.items },
}

impl Liar {
    ghost use Rattle.sector_disk.specs.Liar.{liar_facts, answers_of, reads_of};

    /// Makes a disk of `sectors` sectors. Read number k, counted from 0, returns answer number k
    /// modulo the number of answers, or zeros if there are no answers.
    pub fn new(sectors: u32, answers: Vec<[u8; SECTOR_BYTES]>) -> Liar
        ensures sectors { (liar_facts result).sectors ≡ sectors }
        ensures time { (liar_facts result).time ≡ 0 }
        ensures failures { (liar_facts result).failures ≡ 0 }
        ensures answers { answers_of result ≡ answers.items }
        ensures reads { reads_of result ≡ 0 }
    {
        Liar {
            sectors,
            answers,
            next: 0,
            calls: CallCount::new(),
            reads: Past::new(),
        }
    }
}

impl Disk for Liar {
    ghost use Rattle.std.specs.Prelude.{IsTrue, IsOk};
    ghost use Rattle.sector_disk.specs.Disk.{IsCall, IsRead, IsWrite, IsSync};
    ghost use Rattle.sector_disk.specs.Liar.{liar_facts, answer, answers_of, reads_of};
    ghost use Rattle.sector_disk.specs.Liar.{TakesAnswer, KeepsAnswers};

    ghost facts = { liar_facts };

    ghost holds_now = { λ liar honest. Prim.cc };

    ghost whole_sectors = { λ liar honest. Prim.cc };

    fn sectors(&self) -> u32 {
        self.sectors
    }

    /// Never fails.
    fn read(&mut self, at: u32, into: &mut [u8; SECTOR_BYTES]) -> Result<(), DiskFault>
        requires { at < (liar_facts self.old).sectors }
        ensures calls { IsCall (liar_facts self.old) (liar_facts self.new) result }
        ensures honest { IsTrue (liar_facts self.old).honest
            → IsRead (liar_facts self.old) (liar_facts self.new) at into.new result }
        ensures ok { IsOk result }
        ensures answer { into.new ≡ answer (answers_of self.old) (reads_of self.old) }
        ensures turn { TakesAnswer self.old self.new }
    {
        match self.answers.get(self.next) {
            Some(answer) => {
                *into = *answer;
                self.next = (self.next + 1) % self.answers.len();
            }
            None => *into = [0; SECTOR_BYTES],
        }
        self.reads = self.reads.and(&at);
        let reply = Ok(());
        self.calls.end_call(&reply);
        reply
    }

    /// Never fails.
    fn write(&mut self, at: u32, from: &[u8; SECTOR_BYTES]) -> Result<(), DiskFault>
        requires { at < (liar_facts self.old).sectors }
        ensures calls { IsCall (liar_facts self.old) (liar_facts self.new) result }
        ensures honest { IsTrue (liar_facts self.old).honest
            → IsWrite (liar_facts self.old) (liar_facts self.new) at from.now result }
        ensures ok { IsOk result }
        ensures turn { KeepsAnswers self.old self.new }
    {
        let reply = Ok(());
        self.calls.end_call(&reply);
        reply
    }

    /// Never fails.
    fn sync(&mut self) -> Result<(), DiskFault>
        ensures calls { IsCall (liar_facts self.old) (liar_facts self.new) result }
        ensures honest { IsTrue (liar_facts self.old).honest
            → IsSync (liar_facts self.old) (liar_facts self.new) result }
        ensures ok { IsOk result }
        ensures turn { KeepsAnswers self.old self.new }
    {
        let reply = Ok(());
        self.calls.end_call(&reply);
        reply
    }
}
