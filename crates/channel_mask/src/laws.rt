// Laws of mask texts, as functions that do nothing. A caller whose proof needs a law calls its function.
ghost use Rattle.channel_mask.specs.FrontLaws.{FrontsAreRead};
ghost use Rattle.channel_mask.specs.MaskLaws.{MasksAreNotRefused};
ghost use Rattle.channel_mask.specs.TextLaws.{MasksAreSpelled};

/// Law: a mask text is `none`, or items with commas between them, each a number or two with a hyphen between them.
pub fn masks_are_spelled()
    ensures { MasksAreSpelled }
{}

/// Law: read byte by byte, a text stops where it stops being a beginning of a mask text.
pub fn fronts_are_read()
    ensures { FrontsAreRead }
{}

/// Law: a text that is a mask of an observation is refused for no cause but want of memory.
pub fn masks_are_not_refused()
    ensures { MasksAreNotRefused }
{}
