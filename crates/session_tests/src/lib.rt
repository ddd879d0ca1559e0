//! Tests of sessions with a node that threads share, over devices in memory.
#![tactic(auto)]

#[cfg(test)]
mod concurrent_sessions;
#[cfg(test)]
mod devices;
#[cfg(test)]
mod sessions;
#[cfg(test)]
mod silence;
#[cfg(test)]
mod talking;
#[cfg(test)]
mod talks;
