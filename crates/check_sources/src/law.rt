//! Laws of the account of sources and of the calls on them.

ghost use Rattle.check_sources.specs.Calling.{CallersAgree};
ghost use Rattle.check_sources.specs.SourceStates.{SourcesAgree};
ghost use Rattle.check_sources.specs.Owing.{FlagsAreSteps};

/// The account of a source is what its own entries leave, for every list of entries.
#[tactic(auto, using(crate::proofs::Agreement::agree))]
pub fn sources_agree()
    ensures { SourcesAgree }
{}

/// The flags of the steps that are owed are those steps, in order.
#[tactic(auto, using(crate::proofs::Agreement::flags))]
pub fn flags_are_steps()
    ensures { FlagsAreSteps }
{}

/// For every machine and all entries that name what it has, the numbers and the calls of each actor are those
/// that the definitions read.
pub fn callers_agree()
    ensures { CallersAgree }
{}
