// What a mask text gives for an observation.
ghost use Rattle.dada_model.specs.Observation.{Observation as Described};
ghost use Rattle.channel_mask.specs.Masks.{ExplainsMask};
ghost use Rattle.drive_lone.specs.Scopes.{ExplainsScope};
ghost use Rattle.psr_mask.specs.Masking.{RefusesMask};

use crate::refusal::MaskRefusal;
use channel_mask::{Mask, MaskFault};
use drive_lone::{ScopeFault, Scoping};
use obs_plan::Observation;
use psr_base::Memory;
use search_engine::Scope;
use search_model::Search;
use std::alloc::Global;

/// A mask text.
#[derive(Clone, Copy)]
pub(crate) struct MaskWord<'a> {
    pub(crate) text: &'a [u8],
}

// A fault of a mask text as one of what is searched.
fn scope_fault(fault: MaskFault, text: &[u8]) -> ScopeFault<MaskRefusal>
    ensures { (o : Described) → ExplainsMask o text.now fault
        → ExplainsScope (RefusesMask text.now) o result }
{
    match fault {
        MaskFault::BadMask { place } => ScopeFault::Refused(MaskRefusal::BadMask { place }),
        MaskFault::OutOfRange { channel, channels } => {
            ScopeFault::Refused(MaskRefusal::OutOfRange { channel, channels })
        }
        MaskFault::AllMasked => ScopeFault::Refused(MaskRefusal::AllMasked),
        MaskFault::Memory => ScopeFault::Memory,
    }
}

impl Scoping for MaskWord<'_> {
    ghost use Rattle.channel_mask.specs.Masks.{IsMaskOf};
    ghost use Rattle.psr_mask.specs.Masking.{AcceptsMask, RefusesMask, ScopesMask};

    type Refusal = MaskRefusal;

    type Accepted = Mask;

    ghost accepts = { λ word o. AcceptsMask word.text.now o };

    ghost refuses = { λ word o refusal. RefusesMask word.text.now o refusal };

    ghost keeps = { λ word o mask. IsMaskOf o word.text.now mask };

    ghost scopes = { λ word o s scope. ScopesMask word.text.now o s scope };

    fn judge(
        &self,
        alloc: Global,
        observation: &Observation,
    ) -> Result<Mask, ScopeFault<MaskRefusal>> {
        match Mask::read(alloc, self.text, observation) {
            Ok(mask) => Ok(mask),
            Err(fault) => Err(scope_fault(fault, self.text)),
        }
    }

    fn scope(
        &self,
        alloc: Global,
        observation: &Observation,
        search: &Search,
        mask: Mask,
    ) -> Result<Scope, Memory> {
        mask.scope(alloc, observation, search.max_delay)
    }
}
