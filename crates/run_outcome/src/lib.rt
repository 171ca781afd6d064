//! Why a run of a program stopped before its end (`Stop`): its exit status, and the line on standard error.
//! `Stop::of_..` make stops of the faults of lower crates, and `tell` writes the line; the laws say what a status
//! means.
#![tactic(auto)]

mod causes;
mod command;
mod conversions;
mod ends;
mod laws;
mod line;
mod purpose;
mod ran;
mod stop;
mod telling;

pub use causes::{PlanCause, RecordingCause};
pub use command::words_or_status;
pub use ends::{
    accepted_goes_on, accepted_is_not_refused, end_after_whole, end_at_stop, end_at_words,
    end_before_session, firsts_are_answered, statuses_say_stops, stops_are_answered,
    texts_are_answered, words_say_once,
};
pub use laws::{runs_record_blocks, whole_runs_record_data};
pub use purpose::Purpose;
pub use ran::Ran;
pub use stop::Stop;
pub use telling::{tell, tell_line};
