//! Laws over the definitions: functions that do nothing, or call laws of lower crates, whose contracts are the laws.

ghost use Rattle.afdx_levels.specs.Inner.Laws.{AllowedIsALevel, AtRestIsTheAccount, AccountsChooseWhatConforms, KnowledgeNeverShrinks, SilenceTells, FateMayBe, ToldIsAllowed};
ghost use Rattle.afdx_levels.specs.Inner.Laws.{NoiseIsAllowedAtRest, NoiseIsAllowed, SurplusIsJitter};

use afdx_account::laws::steps_pass_what_conforms;

/// Proves that without noise the fates that are allowed are those that an account gives whose level at the beginning lies
/// within what is known.
pub fn allowed_is_a_level()
    ensures { AllowedIsALevel }
{}

/// Proves that at rest and without noise the fates that are allowed are those of the policing's account, step by step, and no
/// others; they choose the frames that policing passes.
pub fn at_rest_is_the_account()
    ensures fates { AtRestIsTheAccount }
    ensures passed { AccountsChooseWhatConforms }
{
    steps_pass_what_conforms();
}

/// Proves that the fates that are told are allowed, whatever is seen of the unsure frames, and that each of them may be.
pub fn told_is_allowed()
    ensures each { FateMayBe }
    ensures all { ToldIsAllowed }
{}

/// Proves that what is not known of a level never grows, but for the noise of the stamps.
pub fn knowledge_never_shrinks()
    ensures { KnowledgeNeverShrinks }
{}

/// Proves that after a silence in which an account is filled, whatever its level was, as much is known of it as of one that was
/// at rest.
pub fn silence_tells()
    ensures { SilenceTells }
{}

/// Proves that what an account did is allowed of what was recorded, however the stamps are off by the tolerance, whether the
/// account was full or had any level when the recording began.
pub fn noise_is_allowed()
    ensures at_rest { NoiseIsAllowedAtRest }
    ensures unknown { NoiseIsAllowed }
{}

/// Proves that all frames that are allowed to pass conform to the terms with a jitter that is twice the tolerance more: no
/// other surplus hides.
pub fn surplus_is_jitter()
    ensures { SurplusIsJitter }
{
    steps_pass_what_conforms();
}
