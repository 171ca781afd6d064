// Boxes over rows that are fed in pieces.
ghost use Rattle.std.specs.Prelude.{◌≡◌, ◌≤◌, length};
ghost use Rattle.box_sums.specs.Tails.{AreAlike, KeepsRow};
ghost use Rattle.box_sums.specs.Rows.{IsWidth};

use crate::values::values;
use box_sums::Boxes;
use psr_base::Memory;
use std::alloc::Global;

#[test]
fn last_values_are_added(rt: HostRuntime) -> Result<(), Memory> {
    let mut boxes = Boxes::open(rt.alloc(), 1, 2, 3, 2, 100)?;
    boxes.feed_row(1, &[0, 30, 20]);
    boxes.feed_row(2, &[100]);
    let first = [boxes.sum(1, 2, 2), boxes.sum(1, 0, 2), boxes.sum(2, 0, 2)];
    boxes.feed_row(1, &[7]);
    let second = [boxes.sum(1, 0, 2), boxes.sum(1, 0, 1), boxes.sum(2, 0, 2)];
    let are = first.as_slice() == [50_u32, 0, 100].as_slice();
    assert!(rt; are && second.as_slice() == [27_u32, 7, 100].as_slice());
    Ok(())
}

#[test]
fn kept_rows_are_summed(rt: HostRuntime) -> Result<(), Memory> {
    let mut boxes = Boxes::open(rt.alloc(), 1, 1, 3, 2, 100)?;
    boxes.feed_unkept(1, &[0, 30, 20]);
    boxes.keep_newest();
    let first = [boxes.kept_sum(1, 2, 2), boxes.kept_sum(1, 0, 2)];
    let reached = boxes.may_reach(2, 50) && !boxes.may_reach(2, 51);
    boxes.feed_unkept(1, &[7]);
    let before = boxes.kept_sum(1, 2, 2);
    boxes.keep_newest();
    let second = [before, boxes.kept_sum(1, 0, 2), boxes.kept_sum(1, 0, 1)];
    let are = first.as_slice() == [50_u32, 0].as_slice() && reached;
    assert!(rt; are && second.as_slice() == [50_u32, 27, 7].as_slice());
    Ok(())
}

// Feeds 16 sums of 50000 if no box of two values reaches `least`. Answers whether it did.
fn is_fed_quietly(boxes: &mut Boxes, least: u32) -> bool
    requires row { KeepsRow boxes.old 1 }
    requires chunk { boxes.old.chunk ≡ 16 }
    requires widest { boxes.old.widest ≡ 2 }
    requires bound { boxes.old.bound ≡ 60000 }
    ensures { AreAlike boxes.new boxes.old }
{
    boxes.feed_quiet(1, &[30_000; 16], &[20_000; 16], &[None, Some(least)])
}

#[test]
fn sums_are_fed_where_no_box_reaches(rt: HostRuntime) -> Result<(), Memory> {
    let mut boxes = Boxes::open(rt.alloc(), 1, 1, 16, 2, 60_000)?;
    let alone = !is_fed_quietly(&mut boxes, 100_000) && is_fed_quietly(&mut boxes, 100_001);
    boxes.feed_row(1, &[50_095]);
    let across = !is_fed_quietly(&mut boxes, 100_095) && boxes.sum(1, 0, 2) == 100_095;
    let near = is_fed_quietly(&mut boxes, 100_096);
    boxes.feed_row(1, &[7]);
    assert!(rt; alone && across && near && boxes.sum(1, 0, 2) == 50_007);
    Ok(())
}

#[test]
fn single_values_are_kept(rt: HostRuntime) -> Result<(), Memory> {
    let mut boxes = Boxes::open(rt.alloc(), 4, 5, 3, 1, 100)?;
    boxes.feed_row(5, &[3, 100]);
    boxes.feed_row(4, &[9]);
    assert!(rt; boxes.sum(5, 0, 1) == 3 && boxes.sum(5, 1, 1) == 100);
    Ok(())
}

// The sum of the last `w` of these values.
fn sum_of_last(values: &[u32], w: usize) -> u32 {
    let mut sum = 0_u32;
    for back in 0..w {
        if back < values.len() {
            sum = sum.wrapping_add(values[values.len() - 1 - back]);
        }
    }
    sum
}

// Whether the boxes of width `w` that end in the last feed of row `d` are right. `all` are the values fed, `count` of
// them last.
fn are_right(boxes: &mut Boxes, d: u32, w: u32, all: &[u32], count: usize) -> bool
    requires row { KeepsRow boxes.old d }
    requires few { count ≤ 16 }
    requires chunk { boxes.old.chunk ≡ 16 }
    requires given { count ≤ length all.now }
    requires widest { boxes.old.widest ≡ 32 }
    requires width { IsWidth w }
    requires narrow { w ≤ 32 }
    ensures { boxes.new ≡ boxes.old }
{
    for k in 0..count {
        let wanted = sum_of_last(&all[..all.len() - count + k + 1], w as usize);
        if boxes.sum(d, k as u32, w) != wanted {
            return false;
        }
        if w > 1 && !boxes.may_reach(w, wanted) {
            return false;
        }
    }
    true
}

// Whether the boxes of all widths that end in the last feed of row `d` are right. `all` are the values fed, `count` of
// them last.
fn are_all_right(boxes: &mut Boxes, d: u32, all: &[u32], count: usize) -> bool
    requires row { KeepsRow boxes.old d }
    requires few { count ≤ 16 }
    requires chunk { boxes.old.chunk ≡ 16 }
    requires given { count ≤ length all.now }
    requires widest { boxes.old.widest ≡ 32 }
    ensures { boxes.new ≡ boxes.old }
{
    are_right(boxes, d, 1, all, count)
        && are_right(boxes, d, 2, all, count)
        && are_right(boxes, d, 4, all, count)
        && are_right(boxes, d, 8, all, count)
        && are_right(boxes, d, 16, all, count)
        && are_right(boxes, d, 32, all, count)
}

// Whether the boxes of a row that is fed in pieces are right after each piece.
fn are_fed(alloc: Global) -> Result<bool, Memory> {
    let mut boxes = Boxes::open(alloc, 3, 5, 16, 32, 1000)?;
    let mut all = Vec::new(alloc);
    for count in [5_usize, 16, 0, 1, 16, 3] {
        let other = values(alloc, 9, 1000, 8)?;
        boxes.feed_row(4, other.as_slice());
        let piece = values(alloc, count, 1000, count as u32)?;
        boxes.feed_row(5, piece.as_slice());
        all.extend_from_slice(piece.as_slice())?;
        if !are_all_right(&mut boxes, 5, all.as_slice(), count) {
            return Ok(false);
        }
    }
    Ok(true)
}

#[test]
fn rows_are_fed_in_pieces(rt: HostRuntime) -> Result<(), Memory> {
    assert!(rt; are_fed(rt.alloc())?);
    Ok(())
}
