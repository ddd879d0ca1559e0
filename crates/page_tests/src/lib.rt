//! Tests of what a node answers by HTTP: which requests are taken, and how facts are told.
#![tactic(auto)]

#[cfg(test)]
mod fact_tests;
#[cfg(test)]
mod fact_texts;
#[cfg(test)]
mod facts;
#[cfg(test)]
mod head_rows;
#[cfg(test)]
mod head_tests;
