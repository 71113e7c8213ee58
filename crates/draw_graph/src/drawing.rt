//! A drawing as data.

use why_text::{ToldEvent, ToldStep};

/// Two events, by their numbers: where an edge begins and where it ends.
pub type Edge = (usize, usize);

/// How the edges of a relation look.
#[derive(Clone, Copy, Debug, PartialEq, Eq)]
pub enum Ink {
    /// Program order.
    Order,
    /// Reads-from.
    ReadsFrom,
    /// Coherence.
    Coherence,
    /// From-reads.
    FromReads,
    /// Dependencies.
    Dependency,
    /// What a fence stands between.
    Fence,
    /// A relation that the model names.
    Named,
}

/// The edges of one relation.
#[derive(Drop)]
pub struct Edges {
    /// The name of the relation.
    pub name: Vec<u8>,
    /// How they look.
    pub ink: Ink,
    /// The pairs that are drawn.
    pub pairs: Vec<Edge>,
}

/// The events of one thread.
#[derive(Drop)]
pub struct Cluster {
    /// The thread.
    pub thread: usize,
    /// Its events, in program order.
    pub events: Vec<ToldEvent>,
}

/// The graph of one execution.
#[derive(Drop)]
pub struct Drawing {
    /// What stands below it.
    pub title: Vec<u8>,
    /// The initial stores that are drawn.
    pub initial: Vec<ToldEvent>,
    /// The threads.
    pub clusters: Vec<Cluster>,
    /// The relations.
    pub edges: Vec<Edges>,
    /// Where the steps of the reason begin, if the execution is forbidden.
    pub first: Option<usize>,
    /// The steps, each from where the one before it leads to.
    pub steps: Vec<ToldStep>,
}
