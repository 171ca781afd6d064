//! Gates for tests: one at which two actors of a session wait for each other, which shows whether their hands run at
//! the same time (`Meeting`); and one that counts the turns of each actor (`TurnCount`). A test makes a gate and passes
//! it to the top call of a program.
#![tactic(auto)]

use search_session::Gate;
use std::sync::atomic::{AtomicBool, AtomicU64, Ordering};

/// How often an actor looks for the other.
const LOOKS: u32 = 100_000_000;

/// An actor: whether it came, and whether it then saw the other one.
#[derive(Drop)]
struct Guest {
    actor: u32,
    came: AtomicBool,
    met: AtomicBool,
}

impl Guest {
    fn new(actor: u32) -> Guest {
        Guest {
            actor,
            came: AtomicBool::new(false),
            met: AtomicBool::new(false),
        }
    }

    // Comes, and looks for the other one.
    fn look_for(&self, other: &Guest) {
        self.came.store(true, Ordering::SeqCst);
        for _look in 0..LOOKS {
            if other.came.load(Ordering::SeqCst) {
                self.met.store(true, Ordering::SeqCst);
                return;
            }
        }
    }
}

/// A gate at which two actors wait for each other once. Both see each other only if their hands run at the same time.
#[derive(Drop)]
pub struct Meeting {
    one: Guest,
    other: Guest,
}

impl Meeting {
    /// A gate for these two actors.
    pub fn of(one: u32, other: u32) -> Meeting {
        Meeting {
            one: Guest::new(one),
            other: Guest::new(other),
        }
    }

    /// Whether each saw the other.
    pub fn both_met(&self) -> bool {
        self.one.met.load(Ordering::SeqCst) && self.other.met.load(Ordering::SeqCst)
    }
}

impl Gate for Meeting {
    fn pass(&self, actor: u32, turn: u64) {
        if turn > 0 {
            return;
        }
        if actor == self.one.actor {
            self.one.look_for(&self.other);
        } else if actor == self.other.actor {
            self.other.look_for(&self.one);
        }
    }
}

/// A gate that counts the turns of each actor, by its number, and sees whether it is called with the number of turns
/// before each.
#[derive(Drop)]
pub struct TurnCount {
    turns: [AtomicU64; 9],
    is_wrong: AtomicBool,
}

impl TurnCount {
    /// A gate before any turn.
    pub fn new() -> TurnCount {
        TurnCount {
            turns: [
                AtomicU64::new(0),
                AtomicU64::new(0),
                AtomicU64::new(0),
                AtomicU64::new(0),
                AtomicU64::new(0),
                AtomicU64::new(0),
                AtomicU64::new(0),
                AtomicU64::new(0),
                AtomicU64::new(0),
            ],
            is_wrong: AtomicBool::new(false),
        }
    }

    /// Whether it was called with each turn's own number, and exactly these actors took turns.
    pub fn took_turns(&self, actors: &[u32]) -> bool {
        for (actor, turns) in self.turns.iter().enumerate() {
            let has_turns = turns.load(Ordering::SeqCst) > 0;
            if has_turns != actors.contains(&(actor as u32)) {
                return false;
            }
        }
        !self.is_wrong.load(Ordering::SeqCst)
    }
}

impl Gate for TurnCount {
    fn pass(&self, actor: u32, turn: u64) {
        let Some(turns) = self.turns.get(actor as usize) else {
            self.is_wrong.store(true, Ordering::SeqCst);
            return;
        };
        if turns.load(Ordering::SeqCst) != turn {
            self.is_wrong.store(true, Ordering::SeqCst);
        }
        turns.store(turn.saturating_add(1), Ordering::SeqCst);
    }
}
