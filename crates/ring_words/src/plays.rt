//! What each step on the table tells.
ghost use Rattle.ring_words.specs.Plays.{Looked, WriterTook, Sealed, Tried, Gave, Cleared, Retired};
ghost use Rattle.ring_words.specs.Views.{kept_by_split, given_by_split, joined};
ghost use Rattle.ring_words.specs.declared.views.View.TheVariants.{Spent};

use crate::views::View;
use atomic_table::{Join, Play, Split};
use ring_blocks::Block;

pub(crate) struct Look;

impl Play<Block, View> for Look {
    ghost then = { Looked };
}

pub(crate) struct WriterTake;

impl Play<Block, View> for WriterTake {
    ghost then = { WriterTook };
}

pub(crate) struct Seal;

impl Play<Block, View> for Seal {
    ghost then = { Sealed };
}

pub(crate) struct Try;

impl Play<Block, View> for Try {
    ghost then = { Tried };
}

pub(crate) struct Give;

impl Play<Block, View> for Give {
    ghost then = { Gave };
}

pub(crate) struct Clear;

impl Play<Block, View> for Clear {
    ghost then = { Cleared };
}

pub(crate) struct Retire;

impl Play<Block, View> for Retire {
    ghost then = { Retired };
}

/// The next reader gets a seat of its own.
pub(crate) struct Deal;

impl Split<View> for Deal {
    ghost left = { kept_by_split };

    ghost right = { given_by_split };
}

/// A reader's seat goes back to the writer.
pub(crate) struct Park;

impl Join<View> for Park {
    ghost both = { joined };

    ghost spent = { Spent };
}
