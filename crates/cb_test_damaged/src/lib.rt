//! The tests of damaged files and failing calls: the top call over files and sinks in memory.
#![tactic(auto)]

#[cfg(test)]
mod calls;
#[cfg(test)]
mod certificates;
#[cfg(test)]
mod limits;
#[cfg(test)]
mod runs;
