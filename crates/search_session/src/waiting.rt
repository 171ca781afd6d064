//! Which hands of a round wait for each other in vain, and whether one waits for a thread that can't be had. No
//! contract speaks of it, since no result rests on who waits.
use std::sync::atomic::{AtomicBool, AtomicU64, AtomicUsize, Ordering};
use std::thread::Threads;
use std::{array, thread};

/// The largest number of hands of a session: one for each actor.
const HANDS: usize = 9;

/// Stands for the looks of a hand that took all its turns.
const DONE: u64 = u64::MAX;

/// Stands for the looks of a hand that has not begun.
const UNBEGUN: u64 = u64::MAX - 1;

/// Each time after this many looks a hand that waits for one that has not begun asks whether one more thread could be
/// had: after a millisecond, and then every 4 or 5. If none can be, that hand has no thread of its own, and begins only
/// when another one is done.
const LOOKS_BEFORE_ASKING: u32 = 64;

/// After this many looks, some 0.7 seconds, such a hand is taken for absent, whatever the answer is: what kept it from
/// a thread is gone.
const LOOKS_FOR_UNBEGUN: u32 = 10_000;

/// This many looks in vain after a moment show that there was nothing to find at that moment: the first of them may
/// have begun before it, the second did not.
const LOOKS_SINCE: u64 = 2;

/// What the hands of a round tell each other: how many are at work, which began and neither wait nor are done; how
/// often one began or came back to work; how often each looked in vain, or that it has not begun or is done; whether it
/// was found that those that have not begun have no thread of their own; whether it was found that all wait in vain.
#[derive(Drop)]
pub(crate) struct Watch {
    at_work: AtomicUsize,
    returns: AtomicU64,
    looks: [AtomicU64; HANDS],
    absent: AtomicBool,
    stuck: AtomicBool,
}

/// What a hand saw of the others at a moment when none was at work.
#[derive(Clone, Copy, Drop)]
pub(crate) struct Note {
    returns: u64,
    looks: [u64; HANDS],
}

// The looks of the hand at a place before the first turn. If there is no such hand, it counts as done.
fn first_looks(place: usize, hands: usize) -> AtomicU64 {
    AtomicU64::new(if place < hands { UNBEGUN } else { DONE })
}

/// Whether one more thread can be had at this moment. The thread does nothing.
pub(crate) fn can_start_thread<R: Threads>(rt: &R) -> bool {
    match thread::spawn(rt, || ()) {
        Ok(started) => {
            started.join(rt);
            true
        }
        Err(_none) => false,
    }
}

impl Watch {
    /// A watch over `hands` hands, none of which has begun.
    pub(crate) fn new(hands: usize) -> Watch {
        Watch {
            at_work: AtomicUsize::new(0),
            returns: AtomicU64::new(0),
            looks: array::from_fn(|place| first_looks(place, hands)),
            absent: AtomicBool::new(false),
            stuck: AtomicBool::new(false),
        }
    }

    /// Notes that the hand at a place begins.
    pub(crate) fn begin(&self, place: usize) {
        self.come_back();
        if let Some(looks) = self.looks.get(place) {
            looks.store(0, Ordering::SeqCst);
        }
    }

    /// Whether a hand waited for one that had no thread of its own.
    pub(crate) fn found_absent(&self) -> bool {
        self.absent.load(Ordering::SeqCst)
    }

    /// Finds from time to time, for a hand that has looked `look` times, whether the hands that have not begun have
    /// threads of their own. All threads of the round are there while it waits: if one more can be had, these hands are
    /// only late.
    pub(crate) fn ask_for_unbegun<R: Threads>(&self, rt: &R, look: u32) {
        if look % LOOKS_BEFORE_ASKING != LOOKS_BEFORE_ASKING - 1 || !self.has_unbegun() {
            return;
        }
        if look >= LOOKS_FOR_UNBEGUN || !can_start_thread(rt) {
            self.absent.store(true, Ordering::SeqCst);
        }
    }

    // Whether some hand has not begun.
    fn has_unbegun(&self) -> bool {
        for place in 0..HANDS {
            if self.looks_of(place) == UNBEGUN {
                return true;
            }
        }
        false
    }

    // Whether a hand is done or absent, or had nothing to find when its looks were noted.
    fn found_nothing(&self, noted: u64, looks: u64) -> bool {
        match looks {
            DONE => true,
            UNBEGUN => self.found_absent(),
            _ => looks.saturating_sub(noted) >= LOOKS_SINCE,
        }
    }

    /// Notes that a hand begins to wait.
    pub(crate) fn leave(&self) {
        self.at_work.fetch_sub(1, Ordering::SeqCst);
    }

    /// Notes that a hand waits no longer. It is at work before its return is counted, so no note has the new count and
    /// misses it.
    pub(crate) fn come_back(&self) {
        self.at_work.fetch_add(1, Ordering::SeqCst);
        self.returns.fetch_add(1, Ordering::SeqCst);
    }

    /// Notes that the hand at a place is done.
    pub(crate) fn end(&self, place: usize) {
        if let Some(looks) = self.looks.get(place) {
            looks.store(DONE, Ordering::SeqCst);
        }
        self.leave();
    }

    /// Counts a look in vain of the hand at a place. Answers whether all wait in vain: another hand found so, or none
    /// was at work since this hand's note and each other one had nothing to find at it. If one was at work, the hand
    /// notes anew.
    pub(crate) fn is_in_vain(&self, place: usize, note: &mut Option<Note>) -> bool {
        self.count_look(place);
        if self.stuck.load(Ordering::SeqCst) {
            return true;
        }
        let Some(noted) = *note else {
            *note = self.note();
            return false;
        };
        // The looks come first: a hand that came back before them, and looks in vain again, is seen by its return.
        let others_wait = self.others_found_nothing(place, &noted);
        if !self.is_quiet_since(&noted) {
            *note = self.note();
            return false;
        }
        if others_wait {
            self.stuck.store(true, Ordering::SeqCst);
        }
        others_wait
    }

    // Counts one more look of the hand at a place.
    fn count_look(&self, place: usize) {
        if let Some(looks) = self.looks.get(place) {
            looks.fetch_add(1, Ordering::SeqCst);
        }
    }

    // The looks of the hand at a place.
    fn looks_of(&self, place: usize) -> u64 {
        match self.looks.get(place) {
            Some(looks) => looks.load(Ordering::SeqCst),
            None => DONE,
        }
    }

    // Whether no hand is at work.
    fn is_nobody_at_work(&self) -> bool {
        self.at_work.load(Ordering::SeqCst) == 0
    }

    // A note, unless a hand is at work. The returns come first: a hand that comes back after them is seen by its
    // return.
    fn note(&self) -> Option<Note> {
        let returns = self.returns.load(Ordering::SeqCst);
        if !self.is_nobody_at_work() {
            return None;
        }
        Some(Note {
            returns,
            looks: array::from_fn(|place| self.looks_of(place)),
        })
    }

    // Whether no hand was at work since a note.
    fn is_quiet_since(&self, note: &Note) -> bool {
        self.is_nobody_at_work() && self.returns.load(Ordering::SeqCst) == note.returns
    }

    // Whether each hand but that at a place is done or absent, or had nothing to find at a note.
    fn others_found_nothing(&self, place: usize, note: &Note) -> bool {
        for other in 0..HANDS {
            if other != place && !self.found_nothing(note.looks[other], self.looks_of(other)) {
                return false;
            }
        }
        true
    }
}
