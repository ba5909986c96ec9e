ghost use Rattle.std.specs.Prelude.{◌≡◌, ◌<◌, ◌≤◌, false, slice_set};
ghost use Rattle.trees.specs.Nodes.{node_of};
ghost use Rattle.reader.specs.Writer.{adds, joins, ends_pattern, starts_piece};
ghost use Rattle.reader.specs.Desk.{desk_of, SameMemory};

use crate::writer::Writer;
use trees::{Joiner, Node, NodeKind};

// The counts stay far below what a number holds: a text has 1,024 bytes at most, each token adds two
// nodes at most, and so does the end. So each step asks for a bound (`few`); it is no ghost field of a
// writer, since a step that adds nodes would have to keep it.

// Writes an item in its place, if the memory has it: beyond it, reading goes on without writing, since a
// fault further right comes before the pattern's size.
pub(crate) fn keep<T: Copy>(slots: &mut [T], place: usize, item: T)
    ensures { slots.new ≡ slice_set slots.old place item }
{
    if place < slots.len() {
        slots[place] = item;
    }
}

impl<C: Copy> Writer<'_, '_, '_, '_, C> {
    // Adds a node behind the others.
    pub(crate) fn add(&mut self, kind: NodeKind, a: usize, b: usize)
        requires few { self.old.progress.nodes < 8192 }
        ensures lent { SameMemory self.new self.old }
        ensures added { desk_of self.new ≡ adds (node_of kind a b) (desk_of self.old) }
    {
        let place = self.progress.nodes;
        keep(self.nodes, place, Node::new(kind, a, b));
        self.progress.nodes = place + 1;
    }

    // Joins what was written last to the tree before it, if there is one; `left` is the number of nodes up
    // to that tree's root, or 0.
    fn join(&mut self, joiner: Joiner, left: usize)
        requires some { 1 ≤ self.old.progress.nodes }
        requires few { self.old.progress.nodes < 8192 }
        ensures lent { SameMemory self.new self.old }
        ensures joined { desk_of self.new ≡ joins joiner left (desk_of self.old) }
    {
        if left != 0 {
            let last = self.progress.nodes - 1;
            self.add(NodeKind::Join(joiner), left - 1, last);
        }
    }

    // Closes the pattern that is being read: its last sequence, then its last choice.
    pub(crate) fn end_pattern(&mut self)
        requires piece { self.old.progress.wanting ≡ false }
        requires few { self.old.progress.nodes < 4096 }
        ensures lent { SameMemory self.new self.old }
        ensures ended { desk_of self.new ≡ ends_pattern (desk_of self.old) }
    {
        self.join(Joiner::Sequence, self.progress.sequence);
        self.join(Joiner::Choice, self.progress.choice);
    }

    // Makes one sequence of the pieces read so far, before another base.
    pub(crate) fn start_piece(&mut self)
        requires few { self.old.progress.nodes < 4096 }
        ensures lent { SameMemory self.new self.old }
        ensures started { desk_of self.new ≡ starts_piece (desk_of self.old) }
    {
        if !self.progress.wanting {
            self.join(Joiner::Sequence, self.progress.sequence);
            self.progress.sequence = self.progress.nodes;
        }
    }
}
