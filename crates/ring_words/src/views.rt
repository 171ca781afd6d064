//! What the writer and each reader know, and the rule that ties this to the words and slots.
use crate::shape::RingShape;
use atomic_table::TableRule;
use ring_blocks::{Block, Entry};
use std::collections::LinkedList;

/// What a reader knows. No value of this type is made.
pub struct ReaderView {
    pub shape: RingShape,
    pub number: u64,
    /// The blocks that the reader cleared, oldest first.
    pub cleared: LinkedList<Entry>,
    /// The block that the reader took and has not cleared.
    pub got: Option<Entry>,
    /// Whether the reader holds the buffer of its next block, the one after those that it cleared.
    pub out: bool,
    pub retired: bool,
    /// How often the reader tried to take a block.
    pub tries: u64,
    /// The word that the last try found.
    pub last_try: Option<u64>,
}

/// What the writer knows. No value of this type is made.
pub struct WriterView {
    pub shape: RingShape,
    /// The blocks that the writer sealed, oldest first.
    pub sealed: LinkedList<Entry>,
    /// The count of each reader as the writer saw it last: `u64::MAX` if the reader had retired.
    pub low: LinkedList<u64>,
    /// Whether the writer holds the buffer of the next block, the one after those that it sealed.
    pub out: bool,
    /// How often the writer looked at a reader's count.
    pub looks: u64,
    /// The reader that the writer looked at last, and what it saw.
    pub last_look: Option<(u64, u64)>,
    /// What each reader knows that has no seat of its own: none yet, or no longer one.
    pub parked: LinkedList<Option<ReaderView>>,
    /// The number of readers that got a seat.
    pub split: u64,
}

/// What a seat knows. No value of this type is made.
pub enum View {
    Writer(WriterView),
    Reader(ReaderView),
    Spent,
}

/// The rule of the ring's table.
pub struct RingRule;

impl TableRule<Block, View, RingShape> for RingRule {
    ghost use Rattle.ring_words.specs.Ring.{RuleHolds, first_view};

    ghost holds = { RuleHolds };

    ghost first = { first_view };
}
