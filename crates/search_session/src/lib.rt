//! A session: a feeder, the shards of a search and a recorder take turns over two rings, in hands that run at the same
//! time. There may be no shard, or no recorder. `run_session` drives a `Stage` to its end.
//!
//! Actor 0 is the feeder, 1 to 7 are the shards in order, and 8 is the recorder; actor a works in hand a modulo the
//! number of hands. No turn waits. Between its turns a hand none of whose actors could move waits until one could,
//! until it is found that all hands wait for each other, or until it has looked a hundred thousand times; after a wait
//! in vain it waits no more in that round. A hand that has ended does not wait. Rounds of turns follow one another, the
//! first ones longer and longer, until all have ended. If threads can't be had, the hands take turns in one thread. No
//! call takes memory except what the system takes for a thread.
//!
//! A lone session (`LoneSession`) has no hands: one feeder and one shard take turns in the thread that drives it, over
//! inputs that are lent to it at each turn.
#![tactic(auto)]

mod books;
mod ended;
mod feed;
mod gate;
mod gathering;
mod hand;
mod lone;
mod lone_laws;
mod lone_space;
mod resting;
mod rounds;
mod session;
mod staff;
mod stage;
mod waiting;

pub use ended::SessionEnd;
pub use feed::FeedActor;
pub use gate::{Gate, NoGate};
pub use hand::Hand;
pub use lone::{LoneEnd, LoneSession, run_alone};
pub use lone_laws::{lone_sessions_end, lone_turns_add};
pub use lone_space::LoneSpace;
pub use rounds::round;
pub use session::run_session;
pub use session_readers::{Bank, RecordActor, ShardActor};
pub use stage::Stage;
