//! Tests of `beamnode serve` and `beamnode replay` over real sockets and files.
#![tactic(auto)]

#[cfg(test)]
mod console;
#[cfg(test)]
mod journal_rows;
#[cfg(test)]
mod journal_tests;
#[cfg(test)]
mod node_client;
#[cfg(test)]
mod page_rows;
#[cfg(test)]
mod page_tests;
#[cfg(test)]
mod progress;
#[cfg(test)]
mod responses;
#[cfg(test)]
mod serving;
#[cfg(test)]
mod serving_rows;
#[cfg(test)]
mod serving_tests;
#[cfg(test)]
mod socket_rows;
#[cfg(test)]
mod socket_tests;
