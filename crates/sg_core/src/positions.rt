// Stored positions.
ghost use Rattle.std.specs.Prelude.{◌≡◌, ◌<◌, ◌+◌, ◌^◌, ℕ, IsSome, Some, length, slice_get};
ghost use Rattle.sg_stores.specs.Positions.{WritesAt};
ghost use Rattle.sg_standing.specs.Sources.{mark_in, begun_in, store_at};
ghost use Rattle.sg_standing.specs.Standing.{DoesAct};
ghost use Rattle.sg_core.specs.Answers.{store_act, rewind_act, AnswersStore};

use crate::flow::Core;
use sg_counter::Stored;
use sg_device::Disk;
use sg_standing::start_anew;

impl<D: Disk> Core<D> {
    /// Stores the source's mark, where it isn't the stored position. Takes no memory.
    pub fn store(&mut self, i: u32) -> Stored
        requires inlet { i < length self.old.sources }
        requires store { IsSome (store_at self.old.sources i) }
        requires few { self.old.calls + 1 < 2 ^ 54 }
        ensures does { DoesAct self.old self.new (store_act i result) }
        ensures writes { (s : ℕ) → store_at self.old.sources i ≡ Some s
            → WritesAt self.old.stores self.new.stores s (mark_in self.old.sources i) result }
        ensures answer { (s : ℕ) → store_at self.old.sources i ≡ Some s
            → AnswersStore (mark_in self.old.sources i) (slice_get self.old.stores s)
            (slice_get self.new.stores s) result }
    {
        self.calls += 1;
        let source = self.sources.at(i as usize);
        let mark = source.mark();
        let Some(s) = source.setup.store else {
            unreachable!()
        };
        self.stores.write(s, mark)
    }

    /// Lets the source begin anew: stores 0, where it isn't the stored position. Takes no memory.
    pub fn rewind(&mut self, i: u32) -> Stored
        requires inlet { i < length self.old.sources }
        requires store { IsSome (store_at self.old.sources i) }
        requires none { begun_in self.old.sources i ≡ 0 }
        requires few { self.old.calls + 1 < 2 ^ 54 }
        ensures does { DoesAct self.old self.new (rewind_act i result) }
        ensures writes { (s : ℕ) → store_at self.old.sources i ≡ Some s
            → WritesAt self.old.stores self.new.stores s 0 result }
        ensures answer { (s : ℕ) → store_at self.old.sources i ≡ Some s
            → AnswersStore 0 (slice_get self.old.stores s) (slice_get self.new.stores s) result }
    {
        self.calls += 1;
        let Some(s) = self.sources.at(i as usize).setup.store else {
            unreachable!()
        };
        let answer = self.stores.write(s, 0);
        start_anew(&mut self.sources, i, answer);
        answer
    }
}
