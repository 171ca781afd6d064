//! Reads of the two rings.
ghost use Rattle.std.specs.Prelude.{◌≡◌, ◌≤◌, length, None, IfSome};
ghost use Rattle.ring_ends.specs.Passes.{reader_knows};
ghost use Rattle.ring_ends.specs.Answers.{CanTakeNext};
ghost use Rattle.dada_hdu.specs.Passes.{data_shape, ReadsBoth, EndedFromBoth};
ghost use Rattle.session_readers.specs.Banks.{CanFeed};
ghost use Rattle.session_readers.specs.Reads.{TriesNext, HasRested};
ghost use Rattle.session_readers.specs.Shards.{HasMissed, HasFedBlock, IsHereOrRetired, IsRetired};

use crate::bank::Bank;
use crate::pausing::pause;
use dada_hdu::{BlockTaker, Hdu, HduEnded, HduReader, Taken};

// Reads the next header and clears it. If there is none, it pauses.
pub(crate) fn read_header(hdu: &Hdu, reader: &mut HduReader, space: &mut [u8])
    requires reads { ReadsBoth hdu.now reader.old }
    requires room { 65537 ≤ length space.old }
    ensures reads { ReadsBoth hdu.now reader.new }
    ensures header { TriesNext (reader_knows reader.old.header) (reader_knows reader.new.header) }
    ensures blocks { reader.new.blocks ≡ reader.old.blocks }
    ensures room { length space.new ≡ length space.old }
{
    match hdu.read_header(reader, space) {
        Ok(_taken) => {
            hdu.clear_header(reader);
        }
        Err(_stop) => pause(),
    }
}

// Clears the next block of data, and feeds it to the engine of a transfer. The engine does not end, and leaves a chunk
// that becomes full at the end of the block.
//
// Other readers wait while the block is unpacked, if it ends within the engine's chunk, or while it is copied, if the
// space is large enough. Otherwise they wait for the engine's whole search of it.
//
// If no block can be had (there is none, or another reader holds it), it pauses.
pub(crate) fn feed_block(
    hdu: &Hdu,
    reader: &mut HduReader,
    bank: &mut Bank,
    transfer: usize,
    space: &mut [u8],
) -> Option<Taken>
    requires reads { ReadsBoth hdu.now reader.old }
    requires ready { CanTakeNext (CanFeed bank.old transfer) (data_shape hdu.now)
        (reader_knows reader.old.blocks) }
    ensures reads { ReadsBoth hdu.now reader.new }
    ensures missed { result ≡ None → HasMissed reader.old reader.new bank.old bank.new }
    ensures passed { IfSome result (λ taken. HasFedBlock (data_shape hdu.now)
        reader.old reader.new bank.old transfer taken bank.new) }
    ensures room { length space.new ≡ length space.old }
{
    let size = hdu.shape().size;
    if size as usize > space.len() || u64::from(size) <= bank.room(transfer) {
        lend_block(hdu, reader, bank, transfer)
    } else {
        copy_block(hdu, reader, bank, transfer, space)
    }
}

// Copies the block to the space, clears it, and then feeds the engine from the space.
fn copy_block(
    hdu: &Hdu,
    reader: &mut HduReader,
    bank: &mut Bank,
    transfer: usize,
    space: &mut [u8],
) -> Option<Taken>
    requires reads { ReadsBoth hdu.now reader.old }
    requires ready { CanTakeNext (CanFeed bank.old transfer) (data_shape hdu.now)
        (reader_knows reader.old.blocks) }
    requires room { (data_shape hdu.now).size ≤ length space.old }
    ensures reads { ReadsBoth hdu.now reader.new }
    ensures missed { result ≡ None → HasMissed reader.old reader.new bank.old bank.new }
    ensures passed { IfSome result (λ taken. HasFedBlock (data_shape hdu.now)
        reader.old reader.new bank.old transfer taken bank.new) }
    ensures room { length space.new ≡ length space.old }
{
    match hdu.read(reader, space) {
        Ok(taken) => {
            hdu.clear(reader);
            bank.take(transfer, &space[..taken.used as usize], taken.mark);
            Some(taken)
        }
        Err(_stop) => {
            pause();
            None
        }
    }
}

// Feeds the engine from the block where it lies, and then clears it.
fn lend_block(hdu: &Hdu, reader: &mut HduReader, bank: &mut Bank, transfer: usize) -> Option<Taken>
    requires reads { ReadsBoth hdu.now reader.old }
    requires ready { CanTakeNext (CanFeed bank.old transfer) (data_shape hdu.now)
        (reader_knows reader.old.blocks) }
    ensures reads { ReadsBoth hdu.now reader.new }
    ensures missed { result ≡ None → HasMissed reader.old reader.new bank.old bank.new }
    ensures passed { IfSome result (λ taken. HasFedBlock (data_shape hdu.now)
        reader.old reader.new bank.old transfer taken bank.new) }
{
    match hdu.read_to(reader, bank, transfer) {
        Ok(taken) => {
            hdu.clear(reader);
            Some(taken)
        }
        Err(_stop) => {
            pause();
            None
        }
    }
}

// Whether a read of a header or of data would find its block at this moment.
pub(crate) fn has_next(hdu: &Hdu, pass: &HduEnded) -> bool
    requires { EndedFromBoth hdu.now pass.now }
{
    match pass {
        HduEnded::Here(reader) => hdu.has_next(reader),
        HduEnded::Away(_) | HduEnded::Retired(_) => false,
    }
}

// Retires the reader: the writer no longer waits for it.
pub(crate) fn retire(hdu: &Hdu, pass: HduEnded) -> HduEnded
    requires reads { EndedFromBoth hdu.now pass }
    requires stays { IsHereOrRetired pass }
    ensures reads { EndedFromBoth hdu.now result }
    ensures rested { HasRested pass result }
    ensures retired { IsRetired result }
{
    match pass {
        HduEnded::Here(reader) => HduEnded::Retired(hdu.retire(reader)),
        HduEnded::Away(_reader) => unreachable!(),
        HduEnded::Retired(reader) => HduEnded::Retired(reader),
    }
}
