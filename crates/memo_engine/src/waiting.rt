//! The nodes that may have work.

ghost use Rattle.std.specs.Prelude.{◌≡◌, false, [], ◌∷◌};
ghost use Rattle.memo_engine.specs.Waiting.{HasNoted};

use memo_core::keys::Node;
use std::alloc::{AllocError, Global};

/// Nodes that may have work, of which a claim looks at the last first.
#[derive(Drop)]
pub(crate) struct Waiting {
    /// The nodes. One may stand here twice, and one without work or use until it is met.
    pub nodes: Vec<Node>,
    /// Whether each used node that has work is among them, as far as is known.
    pub is_whole: bool,
}

impl Waiting {
    /// No node, of which nothing is known.
    pub fn new(alloc: Global) -> Self
        ensures { result.is_whole ≡ false }
    {
        Waiting {
            nodes: Vec::new(alloc),
            is_whole: false,
        }
    }

    /// Makes room for so many more nodes.
    pub fn reserve(&mut self, count: usize) -> Result<(), AllocError>
        ensures { HasNoted self.old [] self.new }
    {
        self.nodes.reserve(count)
    }

    /// Notes a node where there is room. Else the list is not whole. It takes no memory.
    pub fn note(&mut self, node: Node)
        ensures { HasNoted self.old (node ∷ []) self.new }
    {
        if self.nodes.len() >= self.nodes.capacity() {
            self.is_whole = false;
            return;
        }
        match self.nodes.push(node) {
            Ok(()) => {}
            Err(_) => unreachable!(),
        }
    }

    /// Forgets all nodes.
    pub fn forget(&mut self)
        ensures { self.new.is_whole ≡ false }
    {
        self.nodes.clear();
        self.is_whole = false;
    }

    /// Forgets all nodes where they are more than so many.
    pub fn shorten(&mut self, most: usize)
        ensures { HasNoted self.old [] self.new }
    {
        if self.nodes.len() > most {
            self.forget();
        }
    }
}
