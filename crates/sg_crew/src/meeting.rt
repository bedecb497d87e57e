// Where the threads of a phase meet behind each round. Nothing is promised of a meeting: what the threads did is
// seen from the workers, behind the phase.
use crate::look::Came;
use std::hint::spin_loop;
use std::sync::Wait;
use std::sync::atomic::{AtomicU64, Ordering};
use std::time::Duration;

// How often a thread looks whether the others have come before it sleeps. A look with its pause takes 8 to 60 ns, by the
// processor: so many take about as long as to sleep and to be woken.
const LOOKS: u32 = 400;

// How often, and for how many milliseconds each time, a thread waits for the others before the first round.
const WAITS: u32 = 10;

const WAIT: u64 = 100;

/// How many records have to be spread over sources so that their turns are worth threads: with as many of the busiest
/// source they take 200 to 700 microseconds.
pub(crate) const WORTH: u64 = 100;

// So many rounds in a row that weren't worth threads end a phase.
const POOR: u64 = 16;

// Whether all threads have come before the first round: not yet, they have, or one didn't come in time.
const OPEN: u64 = 0;

const TOGETHER: u64 = 1;

const APART: u64 = 2;

/// A meeting of so many threads.
#[derive(Drop)]
pub(crate) struct Meeting {
    threads: u64,
    // How many rounds there are at most.
    most: u64,
    // Before the first round.
    registered: AtomicU64,
    state: AtomicU64,
    // Behind a round: how many have come, and the number of the meeting.
    arrived: AtomicU64,
    number: AtomicU64,
    // What the round's turns came to: records, those of the busiest source, busy turns, and turns that found no memory.
    records: AtomicU64,
    top: AtomicU64,
    busy: AtomicU64,
    starved: AtomicU64,
    // What was decided: how many rounds in a row weren't worth threads, how many rounds there are, and whether
    // there is one more.
    poor: AtomicU64,
    rounds: AtomicU64,
    goes_on: AtomicU64,
}

// Looks whether a word has changed, for as long as that is quicker than to sleep.
fn watch(word: &AtomicU64, seen: u64) {
    for _ in 0..LOOKS {
        if word.load(Ordering::SeqCst) != seen {
            return;
        }
        spin_loop();
    }
}

// Waits until a word has changed.
fn wait<T: Wait>(rt: &T, word: &AtomicU64, seen: u64) {
    watch(word, seen);
    for _ in rt.forever() {
        if word.load(Ordering::SeqCst) != seen {
            return;
        }
        word.park(rt, (seen % (1 << 32)) as u32);
    }
}

// Raises a word to so much. It is tried so often at most.
fn raise(word: &AtomicU64, to: u64, tries: u64) {
    for _ in 0..tries {
        let seen = word.load(Ordering::SeqCst);
        if to <= seen {
            return;
        }
        if word
            .compare_exchange(seen, to, Ordering::SeqCst, Ordering::SeqCst)
            .is_ok()
        {
            return;
        }
    }
}

impl Meeting {
    pub(crate) fn new(threads: u64, most: u64) -> Meeting {
        Meeting {
            threads,
            most,
            registered: AtomicU64::new(0),
            state: AtomicU64::new(OPEN),
            arrived: AtomicU64::new(0),
            number: AtomicU64::new(0),
            records: AtomicU64::new(0),
            top: AtomicU64::new(0),
            busy: AtomicU64::new(0),
            starved: AtomicU64::new(0),
            poor: AtomicU64::new(0),
            rounds: AtomicU64::new(1),
            goes_on: AtomicU64::new(0),
        }
    }

    /// Comes before the first round; whether all threads have come. Where the system starts fewer threads, one
    /// waits a second, and then each takes one round without the others.
    pub(crate) fn register<T: Wait>(&self, rt: &T) -> bool {
        if self
            .registered
            .fetch_add(1, Ordering::SeqCst)
            .wrapping_add(1)
            == self.threads
        {
            self.settle(TOGETHER);
        } else {
            watch(&self.state, OPEN);
            for _ in 0..WAITS {
                if self.state.load(Ordering::SeqCst) != OPEN {
                    break;
                }
                self.state
                    .park_timeout(rt, OPEN as u32, Duration::from_millis(WAIT));
            }
            self.settle(APART);
        }
        self.state.load(Ordering::SeqCst) == TOGETHER
    }

    // The first to say so settles whether all have come.
    fn settle(&self, state: u64) {
        if self
            .state
            .compare_exchange(OPEN, state, Ordering::SeqCst, Ordering::SeqCst)
            .is_ok()
        {
            self.state.wake_all();
        }
    }

    /// Meets the other threads behind a round in which this one's turns came to that; whether there is another
    /// round.
    pub(crate) fn meet<T: Wait>(&self, rt: &T, came: Came) -> bool {
        let seen = self.number.load(Ordering::SeqCst);
        self.records.fetch_add(came.records, Ordering::SeqCst);
        raise(&self.top, came.top, self.threads);
        self.busy.fetch_add(came.busy, Ordering::SeqCst);
        if came.starved {
            self.starved.fetch_add(1, Ordering::SeqCst);
        }
        if self.arrived.fetch_add(1, Ordering::SeqCst).wrapping_add(1) == self.threads {
            self.decide();
        } else {
            wait(rt, &self.number, seen);
        }
        self.goes_on.load(Ordering::SeqCst) == 1
    }

    // The last to come decides for all, and opens the next meeting. At least two turns were busy in a round behind
    // which there is another one, so that of two rounds or more as many turns are busy as there are rounds.
    fn decide(&self) {
        let records = self.records.swap(0, Ordering::SeqCst);
        let top = self.top.swap(0, Ordering::SeqCst);
        let busy = self.busy.swap(0, Ordering::SeqCst);
        let starved = self.starved.swap(0, Ordering::SeqCst);
        let poor = if records.saturating_sub(top) < WORTH {
            self.poor.load(Ordering::SeqCst).saturating_add(1)
        } else {
            0
        };
        self.poor.store(poor, Ordering::SeqCst);
        let left = self.rounds.load(Ordering::SeqCst) < self.most;
        let goes_on = left && busy > 1 && starved == 0 && poor < POOR;
        if goes_on {
            self.rounds.fetch_add(1, Ordering::SeqCst);
        }
        self.goes_on
            .store(if goes_on { 1 } else { 0 }, Ordering::SeqCst);
        self.arrived.store(0, Ordering::SeqCst);
        self.number.fetch_add(1, Ordering::SeqCst);
        self.number.wake_all();
    }

    /// How many rounds there were.
    pub(crate) fn rounds(&self) -> u64 {
        self.rounds.load(Ordering::SeqCst)
    }

    /// Whether a thread didn't come in time.
    pub(crate) fn is_apart(&self) -> bool {
        self.state.load(Ordering::SeqCst) == APART
    }
}
