ghost use Rattle.std.specs.Prelude.{◌≡◌, ◌≤◌, false, length};
ghost use Rattle.stack.specs.Stacked.{memory};

use crate::records::{Group, Progress};
use stack::Stack;
use trees::Node;

// All that a reading works with: the memory for the tree, the groups that are open, and how far it has
// come. Each reference has a lifetime of its own: the check follows what is lent by its lifetime. Each step
// says that the memory is still the one that was lent (`lent`), which no field of a writer can say.
#[derive(Drop)]
pub(crate) struct Writer<'n, 'c, 'g, 's, C> {
    pub(crate) nodes: &'n mut [Node],
    pub(crate) classes: &'c mut [C],
    pub(crate) groups: &'g mut Stack<'s, Group>,
    pub(crate) progress: Progress,
    // a last piece has a node, which a joiner or a postfix can name
    ghost some: { progress.wanting ≡ false → 1 ≤ progress.nodes },
    // a group can be opened while the limit is not reached
    ghost slots: { 32 ≤ length (memory groups.now) },
}
