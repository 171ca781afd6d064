//! Blocks that are sealed, or find no room.
ghost use Rattle.std.specs.Prelude.{◌≡◌, ◌≤◌, ◌++◌, [], ◌∷◌, length, take, OnOk, OnErr, IfErr};
ghost use Rattle.ring_ends.specs.Answers.{FitsMark};
ghost use Rattle.dada_hdu.specs.Answers.{entry, header_entry};
ghost use Rattle.dada_hdu.specs.Passes.{WritesBoth, data_shape};
ghost use Rattle.disk_feeder.specs.Turns.{CanSeal, HasHeaderRoom, FindsFull, sealed_headers, sealed_blocks};

use dada_hdu::{Hdu, HduWriter, Mark, WriteStop};
use dada_header::Header;

/// The reader that a full ring waits for, and how many of its blocks that reader had cleared.
#[derive(Clone, Copy)]
pub(crate) struct LateReader {
    pub(crate) reader: u32,
    pub(crate) cleared: u64,
}

/// Seals the first `used` bytes of `space` as a block of data, or answers which reader had cleared too few blocks, and
/// how many. `space` and the block's space change places.
pub(crate) fn write_block(
    hdu: &Hdu,
    pass: &mut HduWriter,
    space: &mut Vec<u8>,
    used: usize,
    mark: Mark,
) -> Result<(), LateReader>
    requires block { CanSeal hdu.now (length space.old.items) pass.old }
    requires within { used ≤ length space.old.items }
    requires fits { FitsMark (data_shape hdu.now).size mark (take used space.old.items) }
    ensures ring { WritesBoth hdu.now pass.new }
    ensures sealed { OnOk result (sealed_blocks pass.new
        ≡ sealed_blocks pass.old ++ entry mark (take used space.old.items) ∷ []) }
    ensures full { IfErr result (λ late.
        FindsFull pass.old.blocks late.reader late.cleared pass.new.blocks) }
    ensures header { pass.new.header ≡ pass.old.header }
    ensures space { length space.new.items ≡ length space.old.items }
    ensures kept { OnErr result (space.new ≡ space.old) }
{
    match hdu.write_space(pass, space, used, mark) {
        Ok(_number) => Ok(()),
        Err(WriteStop::Full { reader, cleared }) => Err(LateReader { reader, cleared }),
        Err(WriteStop::Spent { .. }) => unreachable!(),
    }
}

/// Seals a header, or answers which reader had cleared too few headers, and how many.
pub(crate) fn write_header(
    hdu: &Hdu,
    pass: &mut HduWriter,
    header: &Header,
) -> Result<(), LateReader>
    requires ring { WritesBoth hdu.now pass.old }
    requires room { HasHeaderRoom hdu.now pass.old }
    ensures ring { WritesBoth hdu.now pass.new }
    ensures sealed { OnOk result
        (sealed_headers pass.new ≡ sealed_headers pass.old ++ header_entry header.now ∷ []) }
    ensures full { IfErr result (λ late.
        FindsFull pass.old.header late.reader late.cleared pass.new.header) }
    ensures blocks { pass.new.blocks ≡ pass.old.blocks }
{
    match hdu.write_header(pass, header) {
        Ok(_number) => Ok(()),
        Err(WriteStop::Full { reader, cleared }) => Err(LateReader { reader, cleared }),
        Err(WriteStop::Spent { .. }) => unreachable!(),
    }
}
