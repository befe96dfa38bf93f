//! What the function that reads a result set means in the terms of the grammar. The function computes nothing: its contract is
//! the theorem.
ghost use Rattle.rws_result.specs.OneValues.{OneValuesAreRead};
ghost use Rattle.rws_result.specs.ResultSets.{ResultSetsAreRead};

/// What is read is a result set with these names and rows, and each result set is read.
pub fn result_sets_are_read()
    ensures { ResultSetsAreRead }
{}

/// What [`OneValue`](crate::OneValue) has heard of a whole reply is the one value of the result set that it is.
pub fn one_values_are_read()
    ensures { OneValuesAreRead }
{}
