//! Tests that can't be written as rows of data: each bit and each cut of a file, values that no text and no bytes give, and calls of the
//! mailbox and of images.
#![tactic(auto)]

#[cfg(test)]
mod assembly;
#[cfg(test)]
mod block_files;
#[cfg(test)]
mod blocks;
#[cfg(test)]
mod cuts;
#[cfg(test)]
mod example;
#[cfg(test)]
mod image;
#[cfg(test)]
mod journal_files;
#[cfg(test)]
mod lengths;
#[cfg(test)]
mod mailbox;
#[cfg(test)]
mod records;
#[cfg(test)]
mod shapes;
#[cfg(test)]
mod spellings;
#[cfg(test)]
mod terms;
#[cfg(test)]
mod writes;
