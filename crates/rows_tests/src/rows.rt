// Sums of rows of each length from 0 to 70, against plain loops.
ghost use Rattle.std.specs.Prelude.{◌≡◌, ◌≤◌, length};

use crate::values::{bytes, values};
use fdmt_rows::{
    add_mixed_rows, add_rows, add_to_row, copy_narrow_row, copy_row, greatest, narrow_row, running,
    widen,
};
use psr_base::Memory;
use std::alloc::Global;

// Whether `sum` is the sum of two rows.
fn are_sums(sum: &[u32], a: &[u32], b: &[u32]) -> bool
    requires first { length a.now ≡ length sum.now }
    requires second { length b.now ≡ length sum.now }
{
    for k in 0..sum.len() {
        if sum[k] != a[k].wrapping_add(b[k]) {
            return false;
        }
    }
    true
}

// Whether two rows are added right, in place and into a third one.
fn are_added(alloc: Global, count: usize) -> Result<bool, Memory> {
    let a = values(alloc, count, 0x7fff_ffff, 1)?;
    let b = values(alloc, count, 0x7fff_ffff, 2)?;
    let mut out = values(alloc, count, 9, 3)?;
    let mut row = values(alloc, count, 0x7fff_ffff, 1)?;
    add_rows(out.as_mut_slice(), a.as_slice(), b.as_slice());
    add_to_row(row.as_mut_slice(), out.as_slice());
    Ok(
        are_sums(out.as_slice(), a.as_slice(), b.as_slice())
            && are_sums(row.as_slice(), a.as_slice(), out.as_slice()),
    )
}

// Whether the greatest value of a row is found.
fn is_found(alloc: Global, count: usize) -> Result<bool, Memory> {
    let row = values(alloc, count, 1000, 5)?;
    let mut most = 0;
    for value in row.as_slice() {
        most = most.max(*value);
    }
    Ok(greatest(row.as_slice()) == most)
}

// Whether a row has the values of the bytes.
fn are_bytes(row: &[u32], bytes: &[u8]) -> bool
    requires { length row.now ≡ length bytes.now }
{
    for k in 0..row.len() {
        if row[k] != u32::from(bytes[k]) {
            return false;
        }
    }
    true
}

// Whether bytes are widened right.
fn are_widened(alloc: Global, count: usize) -> Result<bool, Memory> {
    let bytes = bytes(alloc, count)?;
    let mut out = values(alloc, count, 9, 3)?;
    widen(out.as_mut_slice(), bytes.as_slice());
    Ok(are_bytes(out.as_slice(), bytes.as_slice()))
}

// Whether rows of both widths are copied and added right.
fn are_mixed(alloc: Global, count: usize) -> Result<bool, Memory> {
    let a = values(alloc, count, 0x7fff_ffff, 1)?;
    let b = values(alloc, count, 0xffff, 2)?;
    let mut narrow = vec![in alloc; 0_u16; count]?;
    let mut copy = vec![in alloc; 0_u16; count]?;
    let mut out = values(alloc, count, 9, 3)?;
    let mut same = values(alloc, count, 9, 3)?;
    narrow_row(narrow.as_mut_slice(), b.as_slice());
    copy_narrow_row(copy.as_mut_slice(), narrow.as_slice());
    copy_row(same.as_mut_slice(), a.as_slice());
    add_mixed_rows(out.as_mut_slice(), same.as_slice(), copy.as_slice());
    Ok(are_sums(out.as_slice(), a.as_slice(), b.as_slice()))
}

// Whether `sums` are the running sums of a row.
fn are_running(sums: &[u32], x: &[u32]) -> bool
    requires { length sums.now ≤ length x.now }
{
    let later = x.len() - sums.len();
    for k in 0..sums.len() {
        let mut sum = 0_u32;
        for value in &x[k..k + later + 1] {
            sum = sum.wrapping_add(*value);
        }
        if sums[k] != sum {
            return false;
        }
    }
    true
}

// Whether running sums of `later + 1` values are right.
fn are_neighbours_added(alloc: Global, count: usize, later: usize) -> Result<bool, Memory>
    requires few { count ≤ 100 }
    requires more { later ≤ 100 }
{
    let x = values(alloc, count + later, 100, 4)?;
    let mut sums = values(alloc, count, 9, 3)?;
    running(sums.as_mut_slice(), x.as_slice());
    Ok(are_running(sums.as_slice(), x.as_slice()))
}

#[test]
fn rows_of_each_length_are_added(rt: HostRuntime) -> Result<(), Memory> {
    for count in 0..71_usize {
        let are = are_added(rt.alloc(), count)? && are_mixed(rt.alloc(), count)?;
        assert!(rt; are, "{count} values");
    }
    Ok(())
}

#[test]
fn rows_of_each_length_are_looked_through(rt: HostRuntime) -> Result<(), Memory> {
    for count in 0..71_usize {
        let are = is_found(rt.alloc(), count)? && are_widened(rt.alloc(), count)?;
        assert!(rt; are, "{count} values");
    }
    Ok(())
}

#[test]
fn neighbours_are_added(rt: HostRuntime) -> Result<(), Memory> {
    for count in 0..71_usize {
        for later in 0..10_usize {
            let are = are_neighbours_added(rt.alloc(), count, later)?;
            assert!(rt; are, "{count} sums of {later} values and one");
        }
    }
    Ok(())
}
