//! The stack of a process: its return places, y registers and catch tags on one vector of words.
//!
//! A frame and a y register count one word each. y0 is on top, so that rows drop words at the vector's end. A call that may be refused
//! memory gets it before it changes anything; a return, a trim and the dropping of y registers take none.
#![tactic(auto)]

pub mod frames;
pub mod plain;
pub mod walk;
mod word;
