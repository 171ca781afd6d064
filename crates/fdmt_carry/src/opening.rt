// The passes of a carry, and the lists that they work on.
ghost use Rattle.std.specs.Prelude.{◌≢◌, ◌<◌, None, IfOk, IfSome};
ghost use Rattle.fdmt_carry.specs.Passing.{IsPassOf};
ghost use Rattle.fdmt_carry.specs.Carrying.{IsSpareOf};

use crate::passing::Passing;
use crate::tables::Tables;
use psr_base::Memory;
use row_schedule::SpareStores;
use std::alloc::Global;

/// A first pass and, if samples may be above its limit, a pass for all samples.
#[derive(Drop)]
pub struct Passes {
    /// The first pass.
    pub pass: Passing,
    /// The greatest sample for which the first pass serves.
    pub limit: u32,
    /// The pass for all samples, unless the first one serves for them too.
    pub spare: Option<Spare>,
}

/// A pass that may follow another one.
#[derive(Drop)]
pub struct Spare {
    /// The pass.
    pub pass: Passing,
    /// The lists that it works on.
    pub stores: SpareStores,
}

impl Passes {
    /// The passes over these tables, for samples up to `max_sample`.
    pub fn of(alloc: Global, tables: &Tables, max_sample: u32) -> Result<Passes, Memory>
        ensures pass { IfOk result (λ p. IsPassOf tables.now p.limit p.pass) }
        ensures some { IfOk result (λ p. p.limit < max_sample → p.spare ≢ None) }
        ensures spare { IfOk result (λ p. IfSome p.spare (IsSpareOf tables.now max_sample)) }
    {
        let limit = tables.narrow_limit().min(max_sample);
        let pass = tables.passing(alloc, limit)?;
        let spare = spare_pass(alloc, tables, limit, max_sample)?;
        Ok(Passes { pass, limit, spare })
    }
}

// A pass for samples up to `max_sample`, or `None` if `limit` is no lower.
fn spare_pass(
    alloc: Global,
    tables: &Tables,
    limit: u32,
    max_sample: u32,
) -> Result<Option<Spare>, Memory>
    ensures some { limit < max_sample → IfOk result (λ spare. spare ≢ None) }
    ensures spare { IfOk result (λ spare. IfSome spare (IsSpareOf tables.now max_sample)) }
{
    if limit >= max_sample {
        return Ok(None);
    }
    let pass = tables.passing(alloc, max_sample)?;
    let stores = SpareStores::of(alloc, tables.room(&pass))?;
    Ok(Some(Spare { pass, stores }))
}
