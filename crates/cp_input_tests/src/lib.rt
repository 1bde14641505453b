//! Tests that start from the text of an input, and nothing else: of calls on skeletons that neither program makes, of what
//! such calls find, and of runs over streams that fail. Tests of values made by hand stand in `cp_tests`.
#![tactic(auto)]

#[cfg(test)]
mod cohorts;
#[cfg(test)]
mod copies;
#[cfg(test)]
mod derivations;
#[cfg(test)]
mod generalisations;
#[cfg(test)]
mod guarded;
#[cfg(test)]
mod normal_forms;
#[cfg(test)]
mod printed_shapes;
#[cfg(test)]
mod runs;
#[cfg(test)]
mod skeletons;
#[cfg(test)]
mod stated;
