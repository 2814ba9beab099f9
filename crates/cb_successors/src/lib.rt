//! What a search needs of a graph whose nodes are numbers (`Edges`), and the words over chains of edges and rows of nodes.
#![tactic(auto)]

mod edges;

pub use edges::Edges;
