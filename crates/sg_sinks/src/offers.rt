// An offer to a destination.
ghost use Rattle.std.specs.Prelude.{◌≡◌, ◌<◌, ◌+◌, ◌^◌, ◌&&◌, Some, MatchOption, true, false, if◌then◌else◌};
ghost use Rattle.sg_msg.specs.Length.{encoded_len};
ghost use Rattle.sg_sinks.specs.Fitting.{space, has_space};
ghost use Rattle.sg_sinks.specs.States.{recovered};
ghost use Rattle.sg_sinks.specs.Offers.{spools_in, broken_then, queue_verdict, disk_verdict, working_verdict, verdict_of, keeps, takes, offered};
ghost use Rattle.sg_machine.specs.declared.event.Verdict.{Verdict};

use crate::Sink;
use crate::trial::length_within;
use sg_machine::{BufferSetup, Verdict};
use sg_msg::Offer;
use sg_queue::Entry;
use sg_spool::Block;

impl Sink {
    // Keeps the message in memory, with the block of its entry.
    fn keep(&mut self, inlet: u32, number: u64, offer: Offer, block: Option<Block>)
        requires room { 0 < self.old.room }
        ensures seen { self.new.seen ≡ keeps inlet number offer block self.old.seen }
        ensures room { self.new.room + 1 ≡ self.old.room }
    {
        let place = self.taken + self.lengths.len() as u64 + self.queue.len() as u64;
        let Offer {
            dest: _,
            message,
            flow,
        } = offer;
        self.queue.push(Entry {
            place,
            inlet,
            number,
            flow,
            message,
        });
        self.blocks.push_back_reserved(block);
        self.room -= 1;
    }

    // The length of the offer's entry, where no entry waits and it fits.
    fn length_of(&self, buffer: BufferSetup, offer: &Offer) -> Option<u64>
        ensures { MatchOption result (spools_in (Some buffer) self.now.seen offer.now ≡ false)
            (λ n. (n ≡ encoded_len offer.now.message)
            × (spools_in (Some buffer) self.now.seen offer.now ≡ true)
            × (has_space buffer.capacity (space self.now.seen.lengths) n ≡ true)) }
    {
        if self.queue.len() != 0 {
            return None;
        }
        length_within(buffer.capacity, self.used, &offer.message)
    }

    // At a queue in memory.
    fn offer_queue(
        &mut self,
        inlet: u32,
        number: u64,
        offer: Offer,
        block: Option<Block>,
    ) -> Verdict
        requires room { 0 < self.old.room }
        ensures verdict { result ≡ queue_verdict self.old.seen offer }
        ensures seen { self.new.seen ≡ takes inlet number offer block result self.old.seen }
        ensures room { self.new.room + 1 ≡ self.old.room }
    {
        if !offer.flow && self.queue.unflowed() >= u64::from(self.setup.fifo) {
            self.dropped_full += 1;
            self.room -= 1;
            return Verdict::DroppedFull;
        }
        self.keep(inlet, number, offer, block);
        Verdict::Queued
    }

    // At a disk-buffer whose store has failed.
    fn offer_broken(
        &mut self,
        inlet: u32,
        number: u64,
        offer: Offer,
        block: Option<Block>,
    ) -> Verdict
        requires room { 0 < self.old.room }
        ensures verdict { result ≡ (if offer.flow then Verdict.Waits else Verdict.DroppedDisk) }
        ensures seen { self.new.seen ≡ takes inlet number offer block result self.old.seen }
        ensures room { self.new.room + 1 ≡ self.old.room }
    {
        if !offer.flow {
            self.dropped_disk += 1;
            self.room -= 1;
            return Verdict::DroppedDisk;
        }
        self.keep(inlet, number, offer, block);
        Verdict::Waits
    }

    // At a disk-buffer that takes no more.
    fn offer_full(&mut self, inlet: u32, number: u64, offer: Offer, block: Option<Block>) -> Verdict
        requires room { 0 < self.old.room }
        ensures verdict { result ≡ (if offer.flow then Verdict.Waits else Verdict.DroppedFull) }
        ensures seen { self.new.seen ≡ takes inlet number offer block result self.old.seen }
        ensures room { self.new.room + 1 ≡ self.old.room }
    {
        if !offer.flow {
            self.dropped_full += 1;
            self.room -= 1;
            return Verdict::DroppedFull;
        }
        self.keep(inlet, number, offer, block);
        Verdict::Waits
    }

    // On the disk, where the entry stands already.
    #[tactic(auto, using(crate::proofs::SpaceLemmas::space_push))]
    fn spool(&mut self, length: u64)
        requires room { 0 < self.old.room }
        requires sum { space self.old.seen.lengths + 5 + length < 2 ^ 64 }
        ensures seen { self.new.seen ≡ recovered length self.old.seen }
        ensures room { self.new.room + 1 ≡ self.old.room }
    {
        self.lengths.push_back_reserved(length);
        self.used += 5 + length;
        self.room -= 1;
    }

    // At a disk-buffer, whose store works until the offer.
    fn offer_working(
        &mut self,
        buffer: BufferSetup,
        inlet: u32,
        number: u64,
        offer: Offer,
        block: Option<Block>,
        fails: bool,
    ) -> Verdict
        requires room { 0 < self.old.room }
        requires works { self.old.seen.broken ≡ false }
        ensures verdict { result
            ≡ working_verdict (spools_in (Some buffer) self.old.seen offer) fails offer.flow }
        ensures seen { self.new.seen ≡ record (takes inlet number offer block result self.old.seen)
            { broken = fails && spools_in (Some buffer) self.old.seen offer } }
        ensures room { self.new.room + 1 ≡ self.old.room }
    {
        let Some(length) = self.length_of(buffer, &offer) else {
            return self.offer_full(inlet, number, offer, block);
        };
        if fails {
            self.broken = true;
            return self.offer_broken(inlet, number, offer, block);
        }
        self.spool(length);
        Verdict::Spooled
    }

    // At a disk-buffer.
    fn offer_disk(
        &mut self,
        buffer: BufferSetup,
        inlet: u32,
        number: u64,
        offer: Offer,
        block: Option<Block>,
        fails: bool,
    ) -> Verdict
        requires room { 0 < self.old.room }
        requires buffer { self.old.seen.setup.buffer ≡ Some buffer }
        ensures verdict { result
            ≡ disk_verdict (broken_then fails self.old.seen offer) self.old.seen offer }
        ensures seen { self.new.seen ≡ offered fails inlet number offer block result self.old.seen }
        ensures room { self.new.room + 1 ≡ self.old.room }
    {
        if self.broken {
            return self.offer_broken(inlet, number, offer, block);
        }
        self.offer_working(buffer, inlet, number, offer, block, fails)
    }

    /// Keeps what the offer leaves, of the record of that inlet and number: where its disk-buffer takes
    /// it, the entry is on the disk already; else its message waits, beside the block of its entry, or
    /// is dropped. Takes the room of one offer. Where the store fails within the call, it does at the first offer that it would take.
    pub fn offer(
        &mut self,
        inlet: u32,
        number: u64,
        offer: Offer,
        block: Option<Block>,
        fails: bool,
    ) -> Verdict
        requires room { 0 < self.old.room }
        ensures verdict { result ≡ verdict_of fails self.old.seen offer }
        ensures seen { self.new.seen ≡ offered fails inlet number offer block result self.old.seen }
        ensures room { self.new.room + 1 ≡ self.old.room }
    {
        match self.setup.buffer {
            None => self.offer_queue(inlet, number, offer, block),
            Some(buffer) => self.offer_disk(buffer, inlet, number, offer, block, fails),
        }
    }
}
