// The sample file's bytes, two spectra of two channels at a time.
use crate::fed::table_of;
use fdmt_carry::{Carry, Samples};
use psr_base::Memory;
use std::alloc::Global;
use subband_plan::Plan;

// Whether a row of a node has these sums.
fn has(carry: &Carry, k: usize, d: u32, sums: &[u32]) -> bool {
    table_of(carry, k, d) == sums
}

// Whether the rows of two channels are fed, passed and fed again as worked.
fn are_carried(alloc: Global) -> Result<bool, Memory> {
    let edges = [1_500_000, 1_400_000, 1_300_000];
    let plan = Plan::open(alloc, &edges, 0, 1)?;
    let mut carry = Carry::open(alloc, plan, 2, 255)?;
    let has_none = !carry.has_tables() && has(&carry, 0, 1, &[]);
    carry.feed(&[10, 0, 0, 20], 2);
    let is_fed = carry.row(0) == [10, 20].as_slice() && carry.sum(1, 1) == 30;
    let upper = has(&carry, 0, 1, &[0, 30]) && has(&carry, 1, 0, &[10, 0]);
    let lower = has(&carry, 2, 0, &[0, 20]) && has(&carry, 2, 1, &[0, 20]);
    let samples = Samples::Words(&[0, 7, 0, 7]);
    carry.begin(samples, 1);
    carry.make_row(samples);
    let first = carry.made() == [0].as_slice();
    carry.make_row(samples);
    let second = carry.made() == [20].as_slice();
    carry.finish();
    let is_passed = !carry.has_tables();
    carry.pass(Samples::Bytes(&[1, 0, 2, 0]), 1);
    carry.feed(&[0, 7, 0, 7], 1);
    let is_fed_again = carry.sum(1, 0) == 3 && carry.fed() == 5;
    let is_whole = has_none && is_fed && upper && lower;
    Ok(is_whole && first && second && is_passed && is_fed_again)
}

#[test]
fn the_sample_bytes(rt: HostRuntime) -> Result<(), Memory> {
    let are = are_carried(rt.alloc())?;
    assert!(rt; are);
    Ok(())
}

// Whether sums of four channels that need more than 16 bits are as worked.
fn are_wide(alloc: Global) -> Result<bool, Memory> {
    let edges = [1_500_000, 1_400_000, 1_300_000, 1_200_000, 1_100_000];
    let plan = Plan::open(alloc, &edges, 0, 1)?;
    let mut carry = Carry::open(alloc, plan, 1, 100_000)?;
    carry.pass(Samples::Words(&[1, 2, 3, 4]), 1);
    let samples = Samples::Words(&[60_000, 50_000, 1, 2]);
    carry.begin(samples, 1);
    carry.make_row(samples);
    let first = carry.made() == [110_003].as_slice();
    carry.make_row(samples);
    carry.finish();
    carry.feed(&[5, 6, 7, 8], 1);
    Ok(first && carry.sum(0, 0) == 26 && carry.fed() == 3)
}

#[test]
fn samples_that_16_bits_do_not_hold(rt: HostRuntime) -> Result<(), Memory> {
    let are = are_wide(rt.alloc())?;
    assert!(rt; are);
    Ok(())
}

// Whether the row of a delay over four channels is left out if all its sums are below a threshold, and made if one
// reaches it.
fn is_left_out(alloc: Global) -> Result<bool, Memory> {
    let edges = [1_500_000, 1_400_000, 1_300_000, 1_200_000, 1_100_000];
    let plan = Plan::open(alloc, &edges, 0, 1)?;
    let mut carry = Carry::open(alloc, plan, 1, 255)?;
    let samples = Samples::Words(&[1, 2, 3, 4]);
    carry.begin(samples, 1);
    let is_below = !carry.make_reaching_row(samples, 11);
    carry.make_row(samples);
    carry.finish();
    carry.begin(samples, 1);
    let reaches = carry.make_reaching_row(samples, 10) && carry.made() == [10].as_slice();
    carry.make_row(samples);
    carry.finish();
    Ok(is_below && reaches)
}

#[test]
fn a_row_that_reaches_no_least_sum(rt: HostRuntime) -> Result<(), Memory> {
    let is = is_left_out(rt.alloc())?;
    assert!(rt; is);
    Ok(())
}

// Whether the row of a delay over four channels is the sum of its halves, and the next row is made without it.
fn are_halves(alloc: Global) -> Result<bool, Memory> {
    let edges = [1_500_000, 1_400_000, 1_300_000, 1_200_000, 1_100_000];
    let plan = Plan::open(alloc, &edges, 0, 1)?;
    let mut carry = Carry::open(alloc, plan, 1, 255)?;
    carry.pass(Samples::Words(&[5, 6, 7, 8]), 1);
    let samples = Samples::Words(&[1, 2, 3, 4]);
    carry.begin(samples, 1);
    carry.reach_row(samples);
    let Some(halves) = carry.halves() else {
        return Ok(false);
    };
    let are = halves.upper == [3].as_slice() && halves.lower == [7].as_slice();
    carry.leave_out();
    carry.make_row(samples);
    let made = carry.made() == [30].as_slice();
    carry.finish();
    Ok(are && made)
}

#[test]
fn the_halves_of_a_row(rt: HostRuntime) -> Result<(), Memory> {
    let are = are_halves(rt.alloc())?;
    assert!(rt; are);
    Ok(())
}
