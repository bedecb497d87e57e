// The work that waits, and its turns.
ghost use Rattle.std.specs.Prelude.{◌≡◌, ◌||◌, true, false, [], ◌∷◌, ◌++◌, IfOk, OnOk, List};
ghost use Rattle.sg_tree.specs.Walk.{after_deliveries, branches, deliveries_to, stopped, walk};
ghost use Rattle.sg_table.specs.Table.{IsPipeTable, steps_at};
ghost use Rattle.sg_table.specs.declared.pipe.Branch.{Branch as ABranch};
ghost use Rattle.sg_table.specs.declared.pipe.Pipe.{Pipe as APipe};
ghost use Rattle.sg_pipes.specs.Chosen.{branches_for, is_for};
ghost use Rattle.sg_pipes.specs.declared.frame.WalkFrame.TheVariants as frame;
ghost use Rattle.sg_pipes.specs.declared.frame.SiblingList.TheVariants.{Offered};
ghost use Rattle.sg_pipes.specs.Frames.{IsFirstTrial, does, from};
ghost use Rattle.sg_pipes.specs.Messages.{messages_of};
ghost use Rattle.sg_pipes.specs.Turns.{ComesToFrames, WorkComesTo, DeliversOffers, DeliversWith, PassesPipe, Picks, TurnsWalk, WorksWalk, behind, now};

use crate::frame::{Passed, SiblingList, SiblingTrial, WaitingElements, WalkFrame};
use crate::gone::Gone;
use crate::messages::{Messages, reversed, take_last};
use crate::pipe::{
    alone, branch_at, choose, enter, has_final_or_fallback, is_over, last_driver, passes, rewrite,
};
use sg_msg::{Message, Offer};
use sg_table::{Branch, Pipe, Top};
use sg_tree::deliver;
use std::alloc::{AllocError, Global};

/// What is to be done for a message, and what was done.
pub(crate) struct WalkWork {
    pub(crate) alloc: Global,
    /// The statements that are offered the message.
    pub(crate) offered: Vec<Branch>,
    /// What is to be done, the first last.
    pub(crate) frames: Vec<WalkFrame>,
    /// What was left last.
    pub(crate) back: Gone,
    pub(crate) offers: Vec<Offer>,
}

impl Drop for WalkWork {
    fn drop(self) {
        let WalkWork {
            alloc: _alloc,
            offered: _offered,
            frames: _frames,
            back: _back,
            offers: _offers,
        } = self;
    }
}

fn is_for(top: &Top, inlet: u32) -> bool
    ensures { result ≡ is_for inlet top.now }
{
    top.catchall | top.sources.contains(&inlet)
}

// The statements that an inlet's messages are offered to.
fn put_offered(offered: &mut Vec<Branch>, tops: &[Top], inlet: u32) -> Result<(), AllocError>
    ensures { OnOk result (offered.new.items ≡ offered.old.items ++ branches_for inlet tops.now) }
{
    for top in tops {
        if is_for(top, inlet) {
            offered.push(top.branch)?;
        }
    }
    Ok(())
}

// The first of the siblings is next.
fn first_trial(group: SiblingList, message: Message, flow: bool) -> SiblingTrial
    ensures { IsFirstTrial group message flow result }
{
    SiblingTrial {
        group,
        index: 0,
        late: false,
        message,
        flow,
        left: Gone::nothing(),
    }
}

// The next sibling that is walked, from where its list goes on behind its first filters. Those of the other round, and
// those whose first filters stop the message, so that they leave nothing, are passed over.
fn pick(
    offered: &[Branch],
    pipes: &mut Vec<Pipe>,
    trial: &mut SiblingTrial,
) -> Result<Option<Branch>, AllocError>
    requires { IsPipeTable pipes.old.items }
    ensures picks { IfOk result
        (λ branch. Picks pipes.old.items offered.now trial.old trial.new branch) }
    ensures stays { pipes.new.items ≡ pipes.old.items }
{
    while let Some(branch) = branch_at(offered, pipes, trial.group, trial.index) {
        trial.index += 1;
        if branch.fallback == trial.late {
            match enter(pipes, branch.start, &trial.message)? {
                Some(start) => return Ok(Some(Branch { start, ..branch })),
                None => {
                    if branch.drop_unmatched {
                        return Ok(Some(branch));
                    }
                }
            }
        }
    }
    Ok(None)
}

impl WalkWork {
    /// Nothing is to be done.
    pub(crate) fn new(alloc: Global) -> WalkWork
        ensures { result.frames.items ≡ [] }
    {
        WalkWork {
            alloc,
            offered: Vec::new(alloc),
            frames: Vec::new(alloc),
            back: Gone::nothing(),
            offers: Vec::new(alloc),
        }
    }

    /// Forgets what was done, for a message that these statements are offered from an inlet.
    pub(crate) fn clear(&mut self, tops: &[Top], inlet: u32) -> Result<(), AllocError>
        ensures { OnOk result ((self.new.offered.items ≡ branches_for inlet tops.now)
            × (self.new.frames.items ≡ []) × (self.new.offers.items ≡ [])) }
    {
        self.frames.clear();
        self.offers.clear();
        self.offered.clear();
        put_offered(&mut self.offered, tops, inlet)?;
        Ok(())
    }

    /// The message comes out.
    fn leave(&mut self, message: Message)
        ensures { (pipes : List APipe) → ComesToFrames pipes
            (after_deliveries (now self.old).deliveries
            (record { deliveries = []; out = message ∷ []; processed = true })) self.old self.new }
    {
        self.back = Gone {
            out: Messages::One(message),
            processed: true,
        };
    }

    /// Nothing comes out.
    fn stop(&mut self)
        ensures { (pipes : List APipe) → ComesToFrames pipes
            (after_deliveries (now self.old).deliveries stopped) self.old self.new }
    {
        self.back = Gone::nothing();
    }

    fn go(&mut self, at: u32, message: Message, flow: bool) -> Result<(), AllocError>
        ensures { OnOk result ((pipes : List APipe) → ComesToFrames pipes
            (after_deliveries (now self.old).deliveries (walk (steps_at pipes at) message flow))
            self.old self.new) }
    {
        self.frames.push(WalkFrame::Walk { at, message, flow })?;
        Ok(())
    }

    fn begin(&mut self, group: SiblingList, message: Message, flow: bool) -> Result<(), AllocError>
        ensures { OnOk result ((pipes : List APipe) → ComesToFrames pipes
            (after_deliveries (now self.old).deliveries
            (branches (from pipes self.old.offered.items group 0) message flow)) self.old
            self.new) }
    {
        self.frames
            .push(WalkFrame::Try(first_trial(group, message, flow)))?;
        Ok(())
    }

    // Walks the last sibling, with the message itself.
    fn try_last(
        &mut self,
        pipes: &mut Vec<Pipe>,
        trial: SiblingTrial,
        branch: Branch,
    ) -> Result<(), AllocError>
        requires { IsPipeTable pipes.old.items }
        ensures comes { OnOk result (ComesToFrames pipes.old.items
            (does pipes.old.items self.old.offered.items
            (frame.Last trial.left branch.drop_unmatched)
            (does pipes.old.items self.old.offered.items
            (frame.Walk branch.start trial.message (trial.flow || branch.flow)) (now self.old)))
            self.old self.new) }
        ensures stays { pipes.new.items ≡ pipes.old.items }
    {
        let SiblingTrial {
            message,
            flow,
            left,
            ..
        } = trial;
        let flow = flow | branch.flow;
        let drop_unmatched = branch.drop_unmatched;
        if left.adds_nothing(drop_unmatched) {
            return self.walk(pipes, branch.start, message, flow, false);
        }
        self.frames.push(WalkFrame::Last {
            left,
            drop_unmatched,
        })?;
        self.walk(pipes, branch.start, message, flow, false)
    }

    // Walks a sibling of the round, behind which the next one is tried.
    fn try_this(
        &mut self,
        pipes: &mut Vec<Pipe>,
        trial: SiblingTrial,
        branch: Branch,
    ) -> Result<(), AllocError>
        requires { IsPipeTable pipes.old.items }
        ensures comes { OnOk result (ComesToFrames pipes.old.items
            (does pipes.old.items self.old.offered.items
            (frame.Tried trial branch.is_final branch.drop_unmatched)
            (does pipes.old.items self.old.offered.items
            (frame.Walk branch.start trial.message (trial.flow || branch.flow)) (now self.old)))
            self.old self.new) }
        ensures stays { pipes.new.items ≡ pipes.old.items }
    {
        if is_over(&self.offered, pipes, trial.group, trial.index, trial.late) {
            return self.try_last(pipes, trial, branch);
        }
        let message = trial.message.share()?;
        let flow = trial.flow | branch.flow;
        self.frames.push(WalkFrame::Tried {
            trial,
            is_final: branch.is_final,
            drop_unmatched: branch.drop_unmatched,
        })?;
        self.walk(pipes, branch.start, message, flow, false)
    }

    fn try_next(&mut self, pipes: &mut Vec<Pipe>, trial: SiblingTrial) -> Result<(), AllocError>
        requires { IsPipeTable pipes.old.items }
        ensures turns { OnOk result
            (TurnsWalk pipes.old.items (frame.Try trial) self.old self.new) }
        ensures stays { pipes.new.items ≡ pipes.old.items }
    {
        let mut trial = trial;
        match pick(&self.offered, pipes, &mut trial)? {
            None => {
                if trial.late | trial.left.processed {
                    self.back = trial.left;
                    return Ok(());
                }
                trial.late = true;
                trial.index = 0;
                self.frames.push(WalkFrame::Try(trial))?;
                Ok(())
            }
            Some(branch) => self.try_this(pipes, trial, branch),
        }
    }

    // Walks a statement whole, whatever comes out of it.
    fn offer_whole(
        &mut self,
        pipes: &mut Vec<Pipe>,
        branch: Branch,
        message: Message,
        flow: bool,
    ) -> Result<(), AllocError>
        requires table { IsPipeTable pipes.old.items }
        requires frames { self.old.frames.items ≡ [] }
        ensures delivers { OnOk result
            (DeliversWith pipes.old.items message flow self.old (branch ∷ []) self.new []) }
        ensures stays { pipes.new.items ≡ pipes.old.items }
    {
        self.walk(pipes, branch.start, message, flow | branch.flow, true)?;
        self.work(pipes)?;
        Ok(())
    }

    // The statement that waits now: this one, from behind its first filters, once the one that waited is
    // walked, or still that one, where the filters stop the message.
    fn offer_next(
        &mut self,
        pipes: &mut Vec<Pipe>,
        waiting: Option<Branch>,
        branch: Branch,
        message: &Message,
        flow: bool,
    ) -> Result<Option<Branch>, AllocError>
        requires table { IsPipeTable pipes.old.items }
        requires frames { self.old.frames.items ≡ [] }
        ensures delivers { IfOk result (λ now_waiting. (more : List ABranch)
            → DeliversWith pipes.old.items message.now flow self.old
            (behind waiting (branch ∷ more)) self.new (behind now_waiting more)) }
        ensures stays { pipes.new.items ≡ pipes.old.items }
    {
        match enter(pipes, branch.start, message)? {
            Some(start) => {
                if let Some(ready) = waiting {
                    self.offer_whole(pipes, ready, message.share()?, flow)?;
                }
                Ok(Some(Branch { start, ..branch }))
            }
            None => Ok(waiting),
        }
    }

    // Walks each of the statements by itself. The last one that lets the message in has the message itself.
    fn offer_each(
        &mut self,
        pipes: &mut Vec<Pipe>,
        message: Message,
        flow: bool,
    ) -> Result<(), AllocError>
        requires table { IsPipeTable pipes.old.items }
        requires frames { self.old.frames.items ≡ [] }
        ensures delivers { OnOk result
            (DeliversWith pipes.old.items message flow self.old self.old.offered.items self.new []) }
        ensures stays { pipes.new.items ≡ pipes.old.items }
    {
        let mut waiting = None;
        let mut index = 0;
        while let Some(branch) = branch_at(&self.offered, pipes, SiblingList::Offered, index) {
            index += 1;
            waiting = self.offer_next(pipes, waiting, branch, &message, flow)?;
        }
        match waiting {
            Some(branch) => self.offer_whole(pipes, branch, message, flow),
            None => Ok(()),
        }
    }

    /// Tries the statements that are offered the message.
    pub(crate) fn offer(
        &mut self,
        pipes: &mut Vec<Pipe>,
        message: Message,
        flow: bool,
    ) -> Result<(), AllocError>
        requires table { IsPipeTable pipes.old.items }
        requires frames { self.old.frames.items ≡ [] }
        ensures delivers { OnOk result (DeliversOffers pipes.old.items
            (after_deliveries (now self.old).deliveries
            (branches (from pipes.old.items self.old.offered.items Offered 0) message flow))
            self.old self.new) }
        ensures stays { pipes.new.items ≡ pipes.old.items }
    {
        match alone(&self.offered) {
            Some(branch) => self.walk(pipes, branch.start, message, flow | branch.flow, true),
            None => {
                if has_final_or_fallback(&self.offered) {
                    return self.try_next(pipes, first_trial(SiblingList::Offered, message, flow));
                }
                self.offer_each(pipes, message, flow)
            }
        }
    }

    fn take_back(&mut self) -> Gone
        ensures taken { result ≡ self.old.back }
        ensures rest { (self.new.offers ≡ self.old.offers) × (self.new.frames ≡ self.old.frames)
            × (self.new.offered ≡ self.old.offered) × (messages_of self.new.back.out ≡ [])
            × (self.new.back.processed ≡ false) }
    {
        std::mem::replace(&mut self.back, Gone::nothing())
    }

    fn tried(
        &mut self,
        pipes: &mut Vec<Pipe>,
        trial: SiblingTrial,
        is_final: bool,
        drop_unmatched: bool,
    ) -> Result<(), AllocError>
        requires { IsPipeTable pipes.old.items }
        ensures turns { OnOk result (TurnsWalk pipes.old.items
            (frame.Tried trial is_final drop_unmatched) self.old self.new) }
        ensures stays { pipes.new.items ≡ pipes.old.items }
    {
        let mut trial = trial;
        let mut mine = self.take_back();
        mine.processed |= drop_unmatched;
        let ends = mine.processed & is_final;
        trial.left.join(self.alloc, mine)?;
        if ends {
            self.back = trial.left;
            return Ok(());
        }
        self.try_next(pipes, trial)
    }

    fn last(&mut self, left: Gone, drop_unmatched: bool) -> Result<(), AllocError>
        ensures { OnOk result ((pipes : List APipe)
            → TurnsWalk pipes (frame.Last left drop_unmatched) self.old self.new) }
    {
        let mut left = left;
        let mut own = self.take_back();
        own.processed |= drop_unmatched;
        left.join(self.alloc, own)?;
        self.back = left;
        Ok(())
    }

    fn rest(&mut self, next: u32, flow: bool) -> Result<(), AllocError>
        ensures { OnOk result
            ((pipes : List APipe) → TurnsWalk pipes (frame.Rest next flow) self.old self.new) }
    {
        let first = self.take_back();
        self.frames.push(WalkFrame::Each(WaitingElements {
            next,
            flow,
            counts: first.processed,
            waiting: reversed(first.out),
            left: Gone::nothing(),
        }))?;
        Ok(())
    }

    fn each(&mut self, wait: WaitingElements) -> Result<(), AllocError>
        ensures { OnOk result
            ((pipes : List APipe) → TurnsWalk pipes (frame.Each wait) self.old self.new) }
    {
        let mut wait = wait;
        let last = self.take_back();
        wait.left.join(self.alloc, last)?;
        match take_last(&mut wait.waiting) {
            None => {
                wait.left.processed &= wait.counts;
                self.back = wait.left;
                Ok(())
            }
            Some(message) => {
                let next = wait.next;
                let flow = wait.flow;
                self.frames.push(WalkFrame::Each(wait))?;
                self.go(next, message, flow)
            }
        }
    }

    // Lets the message through a filter, a rewrite, a parser or a delivery.
    fn pass(
        &mut self,
        pipes: &mut Vec<Pipe>,
        at: u32,
        message: &mut Message,
        flow: bool,
    ) -> Result<Passed, AllocError>
        requires { IsPipeTable pipes.old.items }
        ensures passes { IfOk result
            (PassesPipe pipes.old.items at message.old message.new flow self.old self.new) }
        ensures stays { pipes.new.items ≡ pipes.old.items }
    {
        let place = at as usize;
        if place >= pipes.len() {
            return Ok(Passed::Arrived);
        }
        match &pipes[place] {
            Pipe::Filter { next, .. } => {
                let next = *next;
                if passes(&mut pipes[place], message)? {
                    Ok(Passed::On(next))
                } else {
                    self.stop();
                    Ok(Passed::Stopped)
                }
            }
            Pipe::Rewrite { next, .. } => {
                let next = *next;
                rewrite(self.alloc, &mut pipes[place], message)?;
                Ok(Passed::On(next))
            }
            Pipe::Parse { rule, next } => {
                let taken = rule.apply(self.alloc, message)?;
                if taken {
                    Ok(Passed::On(*next))
                } else {
                    self.stop();
                    Ok(Passed::Stopped)
                }
            }
            Pipe::Deliver { drivers, next } => {
                deliver(drivers, message, flow, &mut self.offers)?;
                Ok(Passed::On(*next))
            }
            _ => Ok(Passed::Arrived),
        }
    }

    // Does what the pipe there does that ends a list, or that siblings or branches stand in.
    fn arrive(
        &mut self,
        pipes: &mut Vec<Pipe>,
        at: u32,
        message: Message,
        flow: bool,
    ) -> Result<(), AllocError>
        requires { IsPipeTable pipes.old.items }
        ensures turns { OnOk result
            (TurnsWalk pipes.old.items (frame.Walk at message flow) self.old self.new) }
        ensures stays { pipes.new.items ≡ pipes.old.items }
    {
        let place = at as usize;
        if place >= pipes.len() {
            self.leave(message);
            return Ok(());
        }
        match &pipes[place] {
            Pipe::End => {
                self.leave(message);
                Ok(())
            }
            Pipe::Junction { next, .. } => {
                self.frames.push(WalkFrame::Rest { next: *next, flow })?;
                self.begin(SiblingList::At(at), message, flow)
            }
            Pipe::If { other, next, .. } => {
                let next = *next;
                let other = *other;
                let start = choose(&mut pipes[place], other, &message)?;
                self.frames.push(WalkFrame::Rest { next, flow })?;
                match start {
                    Some(start) => self.go(start, message, flow),
                    None => {
                        self.leave(message);
                        Ok(())
                    }
                }
            }
            Pipe::Embedded { .. } => {
                let out = message.share()?;
                self.frames.push(WalkFrame::Out(out))?;
                self.begin(SiblingList::At(at), message, flow)
            }
            _ => self.go(at, message, flow),
        }
    }

    // Offers the message itself to the driver.
    fn hand_over(&mut self, dest: u32, message: Message, flow: bool) -> Result<(), AllocError>
        ensures { OnOk result ((self.new.offers.items
            ≡ self.old.offers.items ++ deliveries_to (dest ∷ []) message flow)
            × (self.new.frames ≡ self.old.frames) × (self.new.offered ≡ self.old.offered)) }
    {
        self.offers.push(Offer {
            dest,
            message,
            flow,
        })?;
        Ok(())
    }

    // Walks the pipes from there on, until the message is stopped or arrives. Where no one waits for what comes
    // out, the last delivery has the message itself.
    fn walk(
        &mut self,
        pipes: &mut Vec<Pipe>,
        start: u32,
        given: Message,
        flow: bool,
        alone: bool,
    ) -> Result<(), AllocError>
        requires { IsPipeTable pipes.old.items }
        ensures comes { OnOk result (WorkComesTo alone pipes.old.items
            (does pipes.old.items self.old.offered.items (frame.Walk start given flow)
            (now self.old)) self.old self.new) }
        ensures stays { pipes.new.items ≡ pipes.old.items }
    {
        let mut at = start;
        let mut message = given;
        'elements: for _ in 0..pipes.len() {
            if alone {
                if let Some(driver) = last_driver(pipes, at) {
                    return self.hand_over(driver, message, flow);
                }
            }
            match self.pass(pipes, at, &mut message, flow)? {
                Passed::On(next) => at = next,
                Passed::Stopped => return Ok(()),
                Passed::Arrived => return self.arrive(pipes, at, message, flow),
            }
        }
        self.go(at, message, flow)
    }

    fn turn(&mut self, pipes: &mut Vec<Pipe>, frame: WalkFrame) -> Result<(), AllocError>
        requires { IsPipeTable pipes.old.items }
        ensures turns { OnOk result (TurnsWalk pipes.old.items frame self.old self.new) }
        ensures stays { pipes.new.items ≡ pipes.old.items }
    {
        match frame {
            WalkFrame::Walk { at, message, flow } => self.walk(pipes, at, message, flow, false),
            WalkFrame::Try(trial) => self.try_next(pipes, trial),
            WalkFrame::Tried {
                trial,
                is_final,
                drop_unmatched,
            } => self.tried(pipes, trial, is_final, drop_unmatched),
            WalkFrame::Last {
                left,
                drop_unmatched,
            } => self.last(left, drop_unmatched),
            WalkFrame::Rest { next, flow } => self.rest(next, flow),
            WalkFrame::Each(wait) => self.each(wait),
            WalkFrame::Out(message) => {
                self.leave(message);
                Ok(())
            }
        }
    }

    /// Does what waits until nothing is left.
    pub(crate) fn work(&mut self, pipes: &mut Vec<Pipe>) -> Result<(), AllocError>
        requires { IsPipeTable pipes.old.items }
        ensures works { OnOk result (WorksWalk pipes.old.items self.old self.new) }
        ensures stays { pipes.new.items ≡ pipes.old.items }
    {
        'turns: for _ in 0..u64::MAX {
            match self.frames.pop() {
                Some(frame) => self.turn(pipes, frame)?,
                None => return Ok(()),
            }
        }
        Err(AllocError)
    }
}
