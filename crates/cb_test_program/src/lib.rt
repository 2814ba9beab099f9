//! The tests of the top call, on the worked files of each command.
//!
//! They stand in a crate of their own, since a crate's tests are proved together with the whole crate once more.
#![tactic(auto)]

#[cfg(test)]
mod certificates;
#[cfg(test)]
mod explained;
#[cfg(test)]
mod limits;
#[cfg(test)]
mod logs;
#[cfg(test)]
mod pairs;
#[cfg(test)]
mod rewound;
#[cfg(test)]
mod top;
