// Binds a program with a registry on a disk.
ghost use Rattle.std.specs.Prelude.{◌≡◌};
ghost use Rattle.registry.specs.inside.Reading.{refusal_of_read};

use crate::bound::bind_found;
use crate::needed::read_needed;
use crate::registry::Registry;
use hash_check::Admitted;
use image::{Image, admit_program};
use requests::{Refusal, Reply};
use sector_disk::Disk;
use store::StoreRefusal;

/// Returns the registry's refusal for a refused read.
pub(crate) fn refusal_of_read(refusal: StoreRefusal) -> Refusal
    ensures { result ≡ refusal_of_read refusal }
{
    match refusal {
        StoreRefusal::Device => Refusal::Device,
        StoreRefusal::Reopen => Refusal::Reopen,
        StoreRefusal::OutOfMemory => Refusal::OutOfMemory,
        _ => Refusal::Damaged,
    }
}

impl<D: Disk> Registry<D> {
    ghost use Rattle.std.specs.Prelude.{◌≡◌, ◌≢◌, ◌<◌, Err, None, IsTrue, IfOk, IfErr};
    ghost use Rattle.sector_disk.specs.Disk.{AreCalls, AreCallsExactly};
    ghost use Rattle.image.specs.Refusal.{program_refusal};
    ghost use Rattle.store.specs.Holds.{KeepsHeld};
    ghost use Rattle.store.specs.Opened.{IsAt};
    ghost use Rattle.requests.specs.Request.{bind};
    ghost use Rattle.states.specs.State.{State};
    ghost use Rattle.registry.specs.Answered.{IsBindAnswer, IsBindRefusal};
    ghost use Rattle.registry.specs.Binding.{bind_sectors, bound_answer, IfBound};
    ghost use Rattle.registry.specs.Phase.{phase_of};
    ghost use Rattle.registry.specs.Untested.{AppliedUntested, UntestedStep};
    ghost use Rattle.store.specs.IsRead.{IsRead};

    /// Returns the image of an admitted program at `base`, or a refusal. The tests of the program
    /// without its libraries must have accepted it. If a read is refused, returns S1 (Device), S5
    /// (Damaged) or S11 (OutOfMemory), and reads no further file. Otherwise a refusal is B3
    /// (Missing), B4 (NoRoom), B5 (Undefined) or, if memory is refused, S11.
    fn bind_admitted(&mut self, program: &Admitted<'_>, base: u64) -> Result<Image, Refusal>
        requires { program_refusal program.now base ≡ None }
        ensures step { (s : State) → IsAt D.facts self.old s
            → UntestedStep (phase_of D.facts self.old s) (bind program.now base)
            (bound_answer result) (phase_of D.facts self.new s) }
        ensures read { IsRead D.facts self.old self.new }
        ensures refusals { IfErr result IsBindRefusal }
        ensures reopen { result ≡ Err Refusal.Reopen → IsTrue self.old.failed }
        ensures device { result ≡ Err Refusal.Device
            → (D.facts self.old.disk).failures < (D.facts self.new.disk).failures }
        ensures all_calls { (s : State) → IsAt D.facts self.old s → IfOk result (λ _.
            AreCallsExactly (bind_sectors s program.now)
            (D.facts self.old.disk) (D.facts self.new.disk)) }
    {
        let walk = match read_needed(self.alloc, &mut self.store, program) {
            Ok(walk) => walk,
            Err(refusal) => return Err(refusal_of_read(refusal)),
        };
        let image = bind_found(self.alloc, program, base, walk)?;
        Ok(image)
    }

    /// Returns the image of the program `file` at `base`, or the first refusal. Tests the program
    /// without its libraries before any call of the disk.
    fn image(&mut self, file: &[u8], base: u64) -> Result<Image, Refusal>
        ensures step { (s : State) → IsAt D.facts self.old s
            → UntestedStep (phase_of D.facts self.old s) (bind file.now base)
            (bound_answer result) (phase_of D.facts self.new s) }
        ensures read { IsRead D.facts self.old self.new }
        ensures failed { IsTrue self.old.failed → (result ≡ Err Refusal.Reopen)
            × (self.new ≡ self.old) }
        ensures refusals { IfErr result IsBindRefusal }
        ensures reopen { result ≡ Err Refusal.Reopen → IsTrue self.old.failed }
        ensures device { result ≡ Err Refusal.Device
            → (D.facts self.old.disk).failures < (D.facts self.new.disk).failures }
        ensures alone { program_refusal file.now base ≢ None → self.new ≡ self.old }
        ensures all_calls { (s : State) → IsAt D.facts self.old s → IfOk result (λ _.
            AreCallsExactly (bind_sectors s file.now)
            (D.facts self.old.disk) (D.facts self.new.disk)) }
    {
        if self.store.has_failed() {
            return Err(Refusal::Reopen);
        }
        let program = admit_program(self.alloc, file, base)?;
        self.bind_admitted(&program, base)
    }

    /// Returns the reply to `Bind`. Reads only the files of the program's load order, one after the
    /// other, each of them once. Admits each file before it reads the next one.
    pub(crate) fn bind(&mut self, program: &[u8], base: u64) -> Reply
        // The answer is a step of `UntestedStep`, and the state is unchanged at every moment.
        ensures applied { (s : State) → IsAt D.facts self.old s
            → AppliedUntested D.facts self.old self.new s s (bind program.now base) result }

        // If the bind returns an image, it has made one call for each sector of the libraries in
        // the load order.
        ensures all_calls { (s : State) → IsAt D.facts self.old s → IfBound result
            (AreCallsExactly (bind_sectors s program.now)
            (D.facts self.old.disk) (D.facts self.new.disk)) }

        // The held byte strings stay unchanged.
        ensures table { self.new.held ≡ self.old.held }
        ensures held { KeepsHeld D.facts self.old self.new }

        // On any disk: if a test of the program without its libraries refuses it, no call is made.
        ensures alone { program_refusal program.now base ≢ None → self.new ≡ self.old }
        ensures failed { IsTrue self.old.failed → (result ≡ Reply.Refused Refusal.Reopen)
            × (self.new ≡ self.old) }
        ensures answers { IsBindAnswer result }
        ensures reopen { result ≡ Reply.Refused Refusal.Reopen → IsTrue self.old.failed }
        ensures device { result ≡ Reply.Refused Refusal.Device
            → (D.facts self.old.disk).failures < (D.facts self.new.disk).failures }
        ensures kept { (self.new.root ≡ self.old.root) × (self.new.entries ≡ self.old.entries)
            × (self.new.failed ≡ self.old.failed) }
        ensures calls { AreCalls (D.facts self.old.disk) (D.facts self.new.disk) }
    {
        match self.image(program, base) {
            Ok(image) => Reply::Bound(image),
            Err(refusal) => Reply::Refused(refusal),
        }
    }
}
