//! Tests of values made by hand, and nothing else: messages, terms, substitutions, patterns, orders, faults, and sources and
//! sinks. They make the calls below skeletons that neither program makes, and compare tables of answers that no report shows.
//! Tests that start from the text of an input stand in `cp_input_tests`.
#![tactic(auto)]

#[cfg(test)]
mod forms;
#[cfg(test)]
mod matched;
#[cfg(test)]
mod messages;
#[cfg(test)]
mod orders;
#[cfg(test)]
mod sources_and_sinks;
#[cfg(test)]
mod tables;
#[cfg(test)]
mod terms;
#[cfg(test)]
mod unifiers;
