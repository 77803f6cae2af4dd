//! Worked examples of verdicts and of the searches below them, with answers from outside; indexes beside one another; reads
//! that give one byte or fail; and runs of the program over files in memory. They stand beside the libraries, so that these
//! are proved once and not once more with their tests.
#![tactic(auto)]

#[cfg(test)]
mod asked;
#[cfg(test)]
mod indexes;
#[cfg(test)]
mod keys;
#[cfg(test)]
mod maps;
#[cfg(test)]
mod parts;
#[cfg(test)]
mod reads;
#[cfg(test)]
mod runs;
#[cfg(test)]
mod verdicts;
