//! Laws on reductions of lists of session commands. The functions compute nothing: their contracts are the theorems.

ghost use Rattle.rws_vars.specs.Reductions.{WholeListsAreReductions, ReductionsGoOn, ReductionsKeepTheMap, ReductionsCompose, ReductionsMayNotCompose};

/// A list is a reduction of itself.
pub fn whole_lists_are_reductions()
    ensures { WholeListsAreReductions }
{}

/// A reduction stays one when the same commands come behind both lists.
pub fn reductions_go_on()
    ensures { ReductionsGoOn }
{}

/// A reduction leaves the same map of settings, but for the statements of prepares that were closed.
pub fn reductions_keep_the_map()
    ensures { ReductionsKeepTheMap }
{}

/// A reduction of a reduction is a reduction of the whole list, where what is missing from the first doesn't read, or
/// the second misses nothing but closed prepares.
pub fn reductions_compose()
    ensures { ReductionsCompose }
{}

/// Reductions don't compose in general: there are three lists of which the third is no reduction of the first.
pub fn reductions_may_not_compose()
    ensures { ReductionsMayNotCompose }
{}
