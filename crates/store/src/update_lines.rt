// The changes of an update. Each of them changes only the draft.
use crate::edit::Edit;
use crate::name_index::close_up;
use crate::refusal::StoreRefusal;
use crate::update::Update;
use sector_disk::Disk;

impl<D: Disk> Update<D> {
    ghost use Rattle.std.specs.Prelude.{◌≡◌, ◌+◌, ◌<◌, ◌≤◌, ℕ, All, OnOk, length};
    ghost use Rattle.std.specs.Int.{div_ceil};
    ghost use Rattle.extents.specs.Extent.{AreDistinct};
    ghost use Rattle.sector_disk.specs.Disk.{sector_bytes};
    ghost use Rattle.states.specs.Changes.{with_bytes, with_new, with_preloads, without};
    ghost use Rattle.states.specs.Limits.{most_preloads};
    ghost use Rattle.states.specs.State.{State};
    ghost use Rattle.store.specs.Draft.{IsDraftedAt, IsDraftedBehind, IsDraftedNamed};
    ghost use Rattle.store.specs.Draft.{IsDraftedOut, IsDraftedOver, IsLine, IsNewToDraft};
    ghost use Rattle.store.specs.Draft.{IsNoPreloadOfDraft, drafted, longest_drafted};
    ghost use Rattle.store.specs.Draft.{room_drafted, touched_preloads};
    ghost use Rattle.store.specs.Names.{IsFileSize, IsName};
    ghost use Rattle.store.specs.Stands.{names_at};
    ghost use Rattle.store.specs.Step.{IsAnswer, IsExactAnswer, IsRefusalOfChange};
    ghost use Rattle.store.specs.Step.{IsRefusalOfPutNew, IsRefusalOfPutOver};
    ghost use Rattle.store.specs.Step.{refusal_of_change, refusal_of_new, refusal_of_put};

    /// Puts a byte string of 64 bytes to 16 MiB after the draft's other byte strings. None of these
    /// may have the name `name`. Writes the sectors of the bytes and of the entry, without a sync.
    /// Refuses with S2, S9, S10, S11, S7, S8 or S1; only S1 may come after the first write.
    pub fn put_new(&mut self, name: &[u8], bytes: &[u8]) -> Result<(), StoreRefusal>
        requires name { IsName name.now }
        requires size { IsFileSize (length bytes.now) }
        requires new { IsNewToDraft self.old name.now }
        ensures line { IsLine D.facts self.old self.new
            (div_ceil (length bytes.now) sector_bytes + 1) IsRefusalOfPutNew result }
        ensures ok { (s d : State) → IsDraftedAt D.facts self.old s d → OnOk result
            (IsDraftedAt D.facts self.new s (drafted d (with_new name.now bytes.now d))) }
        ensures refused { (s d : State) → IsDraftedAt D.facts self.old s d → IsAnswer
            (refusal_of_new (room_drafted self.old) (longest_drafted self.old) d bytes.now) result }
        ensures placed { OnOk result (IsDraftedBehind D.facts self.old self.new bytes.now) }
    {
        let put = self.kept.take_new(&mut self.draft, name, bytes)?;
        self.kept.write_draft(&mut self.disk, &put, bytes)?;
        self.draft.edit(&Edit::Append(put));
        Ok(())
    }

    /// Replaces the bytes that the draft has under the name `name` with `bytes`, which are 64 bytes
    /// to 16 MiB. If the update wrote the old bytes, their sectors become unused immediately.
    /// Otherwise they become unused at the commit, unless the old bytes are held. Allocates
    /// nothing. Refuses with S2, S10, S7, S8 or S1; only S1 may come after the first write.
    pub fn put_over(&mut self, name: &[u8], bytes: &[u8]) -> Result<(), StoreRefusal>
        requires present { (position : ℕ) × IsDraftedNamed self.old name.now position }
        requires size { IsFileSize (length bytes.now) }
        ensures line { IsLine D.facts self.old self.new
            (div_ceil (length bytes.now) sector_bytes + 1) IsRefusalOfPutOver result }
        ensures ok { (s d : State) → IsDraftedAt D.facts self.old s d → OnOk result
            (IsDraftedAt D.facts self.new s (drafted d (with_bytes name.now bytes.now d))) }
        ensures refused { (s d : State) → IsDraftedAt D.facts self.old s d → IsExactAnswer
            (refusal_of_put (room_drafted self.old) (longest_drafted self.old) d bytes.now) result }
        ensures placed { OnOk result
            (IsDraftedOver D.facts self.old self.new name.now bytes.now) }
    {
        let libraries = self.draft.entries.len();
        let Some(position) = self.draft.index.position_of(&self.draft.entries, name) else {
            unreachable!();
        };
        let put = self.kept.take_over(libraries, name, bytes)?;
        self.kept.write_draft(&mut self.disk, &put, bytes)?;
        self.kept.leave(&self.draft.entries[position]);
        self.draft.edit(&Edit::Replace(position, put));
        Ok(())
    }

    /// Removes the byte string with the name `name`, which isn't one of the draft's preloads, from
    /// the draft. The byte strings after it move up by one position, and the preloads keep their
    /// names. Makes no call of the disk, allocates nothing, and takes no sectors. Refuses with S2
    /// or S10.
    pub fn delete(&mut self, name: &[u8]) -> Result<(), StoreRefusal>
        requires present { (position : ℕ) × IsDraftedNamed self.old name.now position }
        requires no_preload { IsNoPreloadOfDraft self.old name.now }
        ensures line { IsLine D.facts self.old self.new 0 IsRefusalOfChange result }
        ensures ok { (s d : State) → IsDraftedAt D.facts self.old s d → OnOk result
            (IsDraftedAt D.facts self.new s (drafted d (without name.now d))) }
        ensures refused { (s d : State) → IsDraftedAt D.facts self.old s d
            → IsExactAnswer (refusal_of_change d) result }
        ensures placed { OnOk result (IsDraftedOut self.old self.new name.now) }
        ensures untouched { self.new.store.disk ≡ self.old.store.disk }
    {
        self.kept.test_change()?;
        let Some(position) = self.draft.index.position_of(&self.draft.entries, name) else {
            unreachable!();
        };
        self.kept.leave(&self.draft.entries[position]);
        self.draft.edit(&Edit::Remove(position));
        close_up(self.draft.preloads.as_mut_slice(), position as u16);
        Ok(())
    }

    /// Makes the draft's byte strings at `positions` its preloads, in this order. There are at most
    /// 16 positions, and none occurs twice. Makes no call of the disk and allocates nothing.
    /// Refuses with S2 or S10.
    pub fn set_preloads(&mut self, positions: &[usize]) -> Result<(), StoreRefusal>
        requires few { length positions.now ≤ most_preloads }
        requires inside { All (λ position. position < length self.old.entries) positions.now }
        requires distinct { AreDistinct positions.now }
        ensures line { IsLine D.facts self.old self.new 0 IsRefusalOfChange result }
        ensures ok { (s d : State) → IsDraftedAt D.facts self.old s d → OnOk result
            (IsDraftedAt D.facts self.new s
            (drafted d (with_preloads (names_at d.libraries positions.now) d))) }
        ensures refused { (s d : State) → IsDraftedAt D.facts self.old s d
            → IsExactAnswer (refusal_of_change d) result }
        ensures entries { self.new.entries ≡ self.old.entries }
        ensures preloads { OnOk result (self.new.preloads ≡ positions.now) }
        ensures touched { OnOk result
            (self.new.touched ≡ touched_preloads self.old.touched) }
        ensures untouched { self.new.store.disk ≡ self.old.store.disk }
    {
        self.kept.test_change()?;
        self.draft.choose(positions);
        Ok(())
    }
}
