// The refusal tests of 01, each with the definition's own Bool as its contract.
// They write nothing that is lent: a refusal leaves everything as it was. Where a test needs a set, it has an array of its own, 16 KiB at most.
#![tactic(auto)]

pub mod limits; // the tests of numbers and lengths
pub mod rooms; // the scratch and the outputs
pub mod sets; // lists of ids: nodes, order, pivots, groups of seeds
pub mod tables; // the search rule and the build rule
