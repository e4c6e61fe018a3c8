ghost use Rattle.std.specs.Prelude.{◌≡◌, ◌∷◌, length, All};
ghost use Rattle.kts_text.specs.Forest.{LiesWithin, flat, trees_at};

use crate::node::Node;

/// Trees that follow one another, in one list or in the file, from some tree on.
#[derive(Clone, Copy, Debug)]
pub struct Siblings<'a> {
    pub(crate) text: &'a [u8],
    /// The nodes of these trees, and no others.
    pub(crate) nodes: &'a [Node],
    pub(crate) depth: usize,
    ghost within: { All (LiesWithin (length text.now)) nodes.now },
    ghost whole: { nodes.now ≡ flat depth (trees_at text.now depth nodes.now) },
}

/// The first of such trees, and the trees after it.
#[derive(Clone, Copy, Debug)]
pub enum Front<'a> {
    /// No tree is left.
    End,
    Atom {
        place: usize,
        bytes: &'a [u8],
        after: Siblings<'a>,
    },
    /// From the place of its `(` to the place after its `)`.
    List {
        start: usize,
        end: usize,
        inside: Siblings<'a>,
        after: Siblings<'a>,
    },
}

impl<'a> Siblings<'a> {
    ghost use Rattle.kts_text.specs.Shown.{trees_left, joined};

    /// Takes the same time however many nodes stand in the first tree.
    pub fn front(&self) -> Front<'a>
        ensures { joined result ≡ trees_left self.now }
    {
        if self.nodes.len() == 0 {
            return Front::End;
        }
        Siblings::front_of(self.text, self.depth, self.nodes[0], &self.nodes[1..])
    }

    /// The tree of the first node, and what follows it.
    fn front_of(text: &'a [u8], depth: usize, node: Node, rest: &'a [Node]) -> Front<'a>
        requires node { LiesWithin (length text.now) node }
        requires rest { All (LiesWithin (length text.now)) rest.now }
        requires whole { node ∷ rest.now ≡ flat depth (trees_at text.now depth (node ∷ rest.now)) }
        ensures { joined result ≡ trees_at text.now depth (node ∷ rest.now) }
    {
        if node.atom {
            return Front::Atom {
                place: node.start(),
                bytes: &text[node.start()..node.end()],
                after: Siblings {
                    text,
                    nodes: rest,
                    depth,
                },
            };
        }
        let (inside, after) = rest.split_at(node.inside as usize);
        Front::List {
            start: node.start(),
            end: node.end(),
            inside: Siblings {
                text,
                nodes: inside,
                depth: node.depth as usize + 1,
            },
            after: Siblings {
                text,
                nodes: after,
                depth,
            },
        }
    }
}
