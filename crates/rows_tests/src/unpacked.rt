// A few bytes whose rows are plain to see.
ghost use Rattle.spectra_rows.specs.Unpacking.{OpenedAlike};

use psr_base::Memory;
use spectra_rows::Unpacker;

// Whether `push` takes the first `taken` of these bytes, after which `spectra` spectra are complete.
fn takes(unpacker: &mut Unpacker, bytes: &[u8], taken: usize, spectra: u32) -> bool
    ensures { OpenedAlike unpacker.new unpacker.old }
{
    unpacker.push(bytes) == taken && unpacker.spectra() == spectra
}

#[test]
fn a_part_of_a_spectrum_is_kept(rt: HostRuntime) -> Result<(), Memory> {
    let mut unpacker = Unpacker::open(rt.alloc(), 3, true, 8, 1, 2)?;
    let first = takes(&mut unpacker, &[10, 0, 0, 20], 4, 1);
    unpacker.taken();
    let none = takes(&mut unpacker, &[], 0, 0);
    let second = takes(&mut unpacker, &[0, 30, 7], 3, 1);
    let are = match unpacker.rows() {
        [high, _, middle, _, low, _] => *high == 20 && *middle == 0 && *low == 30,
        _ => false,
    };
    assert!(rt; first && none && second && are);
    Ok(())
}

#[test]
fn two_channels_in_chunks_of_two(rt: HostRuntime) -> Result<(), Memory> {
    let mut unpacker = Unpacker::open(rt.alloc(), 2, true, 8, 1, 2)?;
    let first = takes(&mut unpacker, &[10, 0, 0], 3, 1);
    let second = takes(&mut unpacker, &[20, 0, 0], 1, 2);
    let are = unpacker.rows() == [10_u32, 0, 0, 20].as_slice();
    unpacker.taken();
    assert!(rt; first && second && are && takes(&mut unpacker, &[0, 0], 2, 1));
    Ok(())
}

#[test]
fn a_rising_band_in_rows_of_bytes(rt: HostRuntime) -> Result<(), Memory> {
    let mut unpacker = Unpacker::open_bytes(rt.alloc(), 3, false, 2)?;
    let first = takes(&mut unpacker, &[10, 20, 255, 40, 50, 60, 70], 6, 2);
    let are = unpacker.byte_rows() == [255_u8, 60, 20, 50, 10, 40].as_slice();
    unpacker.taken();
    let second = takes(&mut unpacker, &[70], 1, 0);
    assert!(rt; unpacker.in_bytes() && first && are && second);
    Ok(())
}
