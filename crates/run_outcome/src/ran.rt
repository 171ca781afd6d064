// How a run of a program ended.
use dada_recorder::RecordEnd;
use ring_ends::Finished;

/// How a run of a program ended.
#[derive(Drop)]
pub struct Ran {
    /// The exit status.
    pub status: u8,
    /// What went through the data ring, if there was one.
    pub blocks: Option<Finished>,
    /// How the recorder ended, if there was one, also if the status names another cause.
    pub recorded: Option<RecordEnd>,
}
