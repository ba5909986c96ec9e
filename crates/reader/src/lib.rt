// The reader: from a pattern's text to its node list, in memory that the caller lends. `read` says what
// every record of that memory holds afterwards, on refusals too. The steppers' builders stand on the node
// lists and classes that it leaves.
#![tactic(auto)]

ghost use Rattle.std.specs.Prelude.{◌≡◌};
ghost use Rattle.reader.specs.Call.{ReadCall};
ghost use Rattle.reader.specs.Writer.{limited_counts};

use crate::limits::{MAX_GROUPS, MAX_NODES, MAX_POSITIONS, MAX_TEXT};
use crate::reading::read_text;
use crate::records::{Counts, Group};
use kinds::{Kind, Refusal, Refused};
use stack::{Stack, clear_from};
use trees::Node;

pub mod limits;
mod nodes;
mod reading;
pub mod records;
mod steps;
pub mod token;
mod writer;

// Reads a pattern's text: the tree's node list and the classes of its positions are left in the lent
// memory, and cleared records beyond them. The group records are for the reading alone.
pub fn read<K: Kind>(
    text: &[u8],
    nodes: &mut [Node],
    classes: &mut [K::Class],
    groups: &mut [Group],
) -> Result<Counts, Refused>
    ensures { ReadCall K.Kind.reading K.Kind.cleared text.now nodes.old classes.old groups.old result nodes.new classes.new groups.new }
{
    if text.is_empty() || text.len() > MAX_TEXT {
        return Err(Refusal::TextLength.at(0));
    }
    if nodes.len() < MAX_NODES || classes.len() < MAX_POSITIONS || groups.len() < MAX_GROUPS {
        return Err(Refusal::MemoryTooShort.at(0));
    }
    let mut stack = Stack::over(groups);
    // cut to the limits: past them nothing is written, however much is lent
    let read = read_text::<K>(
        text,
        &mut nodes[..MAX_NODES],
        &mut classes[..MAX_POSITIONS],
        &mut stack,
    );
    stack.clear(Group::cleared());
    let outcome = limited(read, text.len());
    let used = outcome.unwrap_or_default();
    clear_from(nodes, used.nodes, Node::cleared());
    clear_from(classes, used.positions, K::cleared_class());
    outcome
}

// The size of a pattern is looked at when it has been read to its end, so that every fault comes before.
fn limited(read: Result<Counts, Refused>, end: usize) -> Result<Counts, Refused>
    ensures { result ≡ limited_counts end read }
{
    let counts = read?;
    if counts.positions > MAX_POSITIONS || counts.nodes > MAX_NODES {
        return Err(Refusal::PatternTooLarge.at(end));
    }
    Ok(counts)
}
