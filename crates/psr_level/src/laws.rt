//! A law, which the contract of a function that does nothing carries.
ghost use Rattle.psr_level.specs.Sample.{SampleIsLevelled};

/// Law: the sample of this crate is levelled. A run of it that meets the clauses `headline` and `complete` of
/// `run_level` ends with status 0 and has written its levelled file, unless memory, inputs or output failed.
pub fn sample_is_levelled()
    ensures { SampleIsLevelled }
{}
