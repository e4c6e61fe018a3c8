ghost use Rattle.std.specs.Prelude.{◌≡◌, ◌≤◌, length, slice_get, option_copied, option_map, All};
ghost use Rattle.kts_base.specs.Limits.{most_nesting};
ghost use Rattle.kts_text.specs.Forest.{LiesWithin, flat, nest, trees_at};

use crate::cursor::Siblings;
use crate::node::Node;
use kts_base::List;

/// The trees of a text, each as a node, in order of their first bytes.
#[derive(Debug, Drop)]
pub struct Trees<'a> {
    pub(crate) text: &'a [u8],
    pub(crate) nodes: List<Node>,
    ghost within: { All (LiesWithin (length text.now)) nodes },
    ghost whole: { nodes ≡ flat 0 (trees_at text.now 0 nodes) },
    ghost shallow: { nest (trees_at text.now 0 nodes) ≤ most_nesting },
}

impl<'a> Trees<'a> {
    ghost use Rattle.kts_text.specs.Shown.{trees_in, trees_left, node_bytes};

    pub fn len(&self) -> usize
        ensures { result ≡ length self.now.nodes }
    {
        self.nodes.len()
    }

    /// None exactly where there is no node of this number, counted from 0.
    pub fn node(&self, k: usize) -> Option<Node>
        ensures { result ≡ slice_get self.now.nodes k }
    {
        self.nodes.as_slice().get(k).copied()
    }

    /// The bytes from a node's first to its last.
    pub fn bytes(&self, k: usize) -> Option<&'a [u8]>
        ensures { option_copied result ≡ option_map (node_bytes self.now.text.now) (slice_get self.now.nodes k) }
    {
        let node = self.node(k)?;
        Some(&self.text[node.start as usize..node.end as usize])
    }

    /// The trees in no list, from the first on.
    pub fn all(&self) -> Siblings<'_>
        ensures { trees_left result ≡ trees_in self.now }
    {
        Siblings {
            text: self.text,
            nodes: self.nodes.as_slice(),
            depth: 0,
        }
    }
}
