// Pattern trees as node lists: the records that the reader writes and that the builders of steppers
// check and read. What a node list says is `listed` in specs/Listing.
#![tactic(auto)]

ghost use Rattle.std.specs.Prelude.{◌≡◌, Some};
ghost use Rattle.trees.specs.Nodes.{kind_number, IsKindOf, unknown_kind_text, node_of, cleared_node};

use std::error::Error;
use std::fmt;

// What joins two trees: one after the other, or either.
#[derive(Clone, Copy, PartialEq, Eq, Debug)]
pub enum Joiner {
    Sequence,
    Choice,
}

// What stands behind a tree: `*` none or more, `+` one or more, `?` none or one.
#[derive(Clone, Copy, PartialEq, Eq, Debug)]
pub enum Postfix {
    Star,
    Plus,
    Optional,
}

// What a node of a tree can be.
#[derive(Clone, Copy, PartialEq, Eq, Debug)]
pub enum NodeKind {
    Empty,
    Position,
    Join(Joiner),
    Repeat(Postfix),
}

// The number that stands for a kind in a node record.
impl From<NodeKind> for u8 {
    ghost from_gives = { λ kind number. number ≡ kind_number kind };

    fn from(kind: NodeKind) -> u8 {
        match kind {
            NodeKind::Empty => 0,
            NodeKind::Position => 1,
            NodeKind::Join(Joiner::Sequence) => 2,
            NodeKind::Join(Joiner::Choice) => 3,
            NodeKind::Repeat(Postfix::Star) => 4,
            NodeKind::Repeat(Postfix::Plus) => 5,
            NodeKind::Repeat(Postfix::Optional) => 6,
        }
    }
}

// A number that stands for no kind: it is 7 or more.
#[derive(Clone, Copy, PartialEq, Eq, Debug)]
pub struct UnknownKind(pub u8);

impl fmt::Display for UnknownKind {
    ghost output = { λ unknown. Some (unknown_kind_text unknown) };

    fn fmt<W: fmt::Write>(&self, f: &mut fmt::Formatter<W>) -> fmt::Result {
        write!(f, "no kind of node has the number {}", self.0)
    }
}

impl Error for UnknownKind {}

impl TryFrom<u8> for NodeKind {
    type Error = UnknownKind;

    ghost try_from_gives = { IsKindOf };

    fn try_from(number: u8) -> Result<NodeKind, UnknownKind> {
        match number {
            0 => Ok(NodeKind::Empty),
            1 => Ok(NodeKind::Position),
            2 => Ok(NodeKind::Join(Joiner::Sequence)),
            3 => Ok(NodeKind::Join(Joiner::Choice)),
            4 => Ok(NodeKind::Repeat(Postfix::Star)),
            5 => Ok(NodeKind::Repeat(Postfix::Plus)),
            6 => Ok(NodeKind::Repeat(Postfix::Optional)),
            _ => Err(UnknownKind(number)),
        }
    }
}

// A node record: plain numbers, whoever wrote them; so `kind` is a number too, which may stand for no
// kind of node. `a` and `b` are the numbers of the operands' nodes, or `a` is the number of a position;
// what a kind does not use is 0. Numbers of nodes and not boxes, since the memory is the caller's.
#[derive(Clone, Copy, PartialEq, Eq, Debug)]
pub struct Node {
    pub kind: u8,
    pub a: usize,
    pub b: usize,
}

impl Node {
    // The record of a node.
    pub fn new(kind: NodeKind, a: usize, b: usize) -> Node
        ensures { result ≡ node_of kind a b }
    {
        Node {
            kind: kind.into(),
            a,
            b,
        }
    }

    // What is left where memory is cleared: all zeros. Not a derived `Default`, which would be no plainer: its
    // name says not what it is for, and no clause what it is.
    pub fn cleared() -> Node
        ensures { result ≡ cleared_node }
    {
        Node {
            kind: 0,
            a: 0,
            b: 0,
        }
    }
}
