// Records that come in.
ghost use Rattle.std.specs.Prelude.{◌≡◌, ◌≤◌, ◌<◌, ◌+◌, ◌^◌, ◌↔◌, true, MatchResult, IfErr, OnErr, length, slice_get};
ghost use Rattle.sg_list.specs.Lists.{change};
ghost use Rattle.sg_machine.specs.declared.event.Act.{Act};
ghost use Rattle.sg_counter.specs.Bringing.{IsBatch, records_back};
ghost use Rattle.sg_offers.specs.Rooms.{seen_in};
ghost use Rattle.sg_standing.specs.Sources.{credit_at, HasCredit, begun_all};
ghost use Rattle.sg_standing.specs.States.{setup_of, counted};
ghost use Rattle.sg_standing.specs.Standing.{DoesAct};
ghost use Rattle.sg_core.specs.Answers.{is_no_credit};

use crate::appends::append_all;
use crate::flow::Core;
use sg_counter::Refused;
use sg_device::Disk;
use sg_list::Seq;
use sg_machine::{Admission, Verdict};
use sg_offers::{offer_all, prepare};
use sg_standing::{Source, begin_at};
use sg_window::BegunRecord;
use std::alloc::Global;

// The source begins with no more records than this.
const MOST: u64 = 1 << 63;

// Begins these records.
fn begin_all(sources: &mut Seq<Source>, i: u32, records: &[BegunRecord])
    requires inlet { i < length sources.old }
    requires credit { HasCredit (slice_get sources.old i) (length records.now) }
    ensures { sources.new ≡ change sources.old i (begun_all records.now) }
{
    for record in records {
        begin_at(sources, i, record.end, record.left);
    }
}

impl<D: Disk> Core<D> {
    /// Takes records in, each with its offers, all or none, and answers the verdict on each offer. All
    /// memory is taken first, so a refusal gives the records back and changes nothing; lack of memory is
    /// answered too where a count would pass its end. Each disk-buffer that takes some of them commits
    /// once.
    pub fn admit(
        &mut self,
        alloc: Global,
        i: u32,
        records: Vec<Admission>,
    ) -> Result<Vec<Verdict>, Refused>
        requires inlet { i < length self.old.sources }
        requires batch { IsBatch (setup_of self.old) records.items }
        requires few { self.old.calls + 1 < 2 ^ 54 }
        ensures does { MatchResult result
            (λ verdicts. DoesAct self.old self.new (Act.Admit i records.items verdicts.items))
            (λ _. DoesAct self.old self.new Act.Look) }
        ensures no_credit { (is_no_credit result ≡ true) ↔
            (credit_at self.old.sources i < length records.items) }
        ensures back { IfErr result (λ refused. records_back refused ≡ records.items) }
        ensures err { OnErr result (self.new ≡ counted self.old) }
    {
        self.calls += 1;
        let source = self.sources.at(i as usize);
        if source.credit() < records.len() as u64 {
            return Err(Refused::NoCredit(Seq::new(records)));
        }
        let next = source.tracker.begun();
        if next > MOST - records.len() as u64 {
            return Err(Refused::NoMemory(Seq::new(records)));
        }
        let mut batch = match prepare(alloc, &mut self.sinks, i, &records) {
            Ok(batch) => batch,
            Err(_) => return Err(Refused::NoMemory(Seq::new(records))),
        };
        append_all(
            &self.sinks,
            &mut self.stores,
            &batch.payloads,
            &mut batch.fails,
        );
        let answers = offer_all(&mut self.sinks, i, next, records, batch);
        begin_all(&mut self.sources, i, &answers.begun);
        Ok(answers.verdicts)
    }
}
