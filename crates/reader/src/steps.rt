ghost use Rattle.std.specs.Prelude.{◌≡◌, ◌<◌, OnOk};
ghost use Rattle.reader.specs.Desk.{desk_of, SameMemory};
ghost use Rattle.reader.specs.Writer.{opens, closes, bars, repeats, takes, ends_group, wrote, EndsOn, outer_groups, pattern_nodes, ended};

use crate::limits::MAX_GROUPS;
use crate::nodes::keep;
use crate::records::{Counts, Group, Progress};
use crate::token::Token;
use crate::writer::Writer;
use kinds::{Refusal, Refused};
use trees::{NodeKind, Postfix};

impl<C: Copy> Writer<'_, '_, '_, '_, C> {
    // `(`: the pattern so far is set aside, and another begins.
    fn open_group(&mut self, place: usize) -> Result<(), Refusal>
        requires few { self.old.progress.nodes < 4096 }
        ensures lent { SameMemory self.new self.old }
        ensures opened { EndsOn (opens place (desk_of self.old)) (desk_of self.new) result }
    {
        if self.groups.len() >= MAX_GROUPS {
            return Err(Refusal::TooManyGroups);
        }
        self.start_piece();
        let group = Group {
            place,
            choice: self.progress.choice,
            sequence: self.progress.sequence,
        };
        // there is a slot: the limit is not reached, and no fewer were lent
        self.groups.push(group).map_err(|_| Refusal::TooManyGroups)?;
        self.progress = Progress {
            choice: 0,
            sequence: 0,
            wanting: true,
            ..self.progress
        };
        Ok(())
    }

    // `|`: what stands before it is closed, and another branch begins.
    fn next_branch(&mut self) -> Result<(), Refusal>
        requires few { self.old.progress.nodes < 4096 }
        ensures lent { SameMemory self.new self.old }
        ensures barred { EndsOn (bars (desk_of self.old)) (desk_of self.new) result }
    {
        if self.progress.wanting {
            return Err(Refusal::BaseWanted);
        }
        self.end_pattern();
        self.progress = Progress {
            choice: self.progress.nodes,
            sequence: 0,
            wanting: true,
            ..self.progress
        };
        Ok(())
    }

    // `*`, `+` or `?`: the last piece is repeated.
    fn repeat_piece(&mut self, postfix: Postfix) -> Result<(), Refusal>
        requires few { self.old.progress.nodes < 4096 }
        ensures lent { SameMemory self.new self.old }
        ensures postfixed { EndsOn (repeats postfix (desk_of self.old)) (desk_of self.new) result }
    {
        if self.progress.wanting {
            return Err(Refusal::BaseWanted);
        }
        let last = self.progress.nodes - 1;
        self.add(NodeKind::Repeat(postfix), last, 0);
        Ok(())
    }

    // An atom: another piece, and the next position.
    fn take_atom(&mut self, class: C)
        requires few { self.old.progress.nodes < 4096 }
        requires counted { self.old.progress.positions < 4096 }
        ensures lent { SameMemory self.new self.old }
        ensures taken { desk_of self.new ≡ takes class (desk_of self.old) }
    {
        self.start_piece();
        let place = self.progress.positions;
        self.add(NodeKind::Position, place + 1, 0);
        keep(self.classes, place, class);
        self.progress.positions = place + 1;
        self.progress.wanting = false;
    }

    // What stands in a group is closed, or is the empty word.
    fn end_group(&mut self) -> Result<(), Refusal>
        requires few { self.old.progress.nodes < 4096 }
        ensures lent { SameMemory self.new self.old }
        ensures ended { EndsOn (ends_group (desk_of self.old)) (desk_of self.new) result }
        ensures groups { (desk_of self.new).groups ≡ (desk_of self.old).groups }
    {
        if !self.progress.wanting {
            self.end_pattern();
            return Ok(());
        }
        if self.progress.choice != 0 {
            return Err(Refusal::BaseWanted);
        }
        self.add(NodeKind::Empty, 0, 0);
        Ok(())
    }

    // `)`: the innermost group is closed, and reading goes on in the pattern around it.
    fn close_group(&mut self) -> Result<(), Refusal>
        requires few { self.old.progress.nodes < 4096 }
        ensures lent { SameMemory self.new self.old }
        ensures closed { EndsOn (closes (desk_of self.old)) (desk_of self.new) result }
        ensures popped { (desk_of self.new).groups ≡ outer_groups (desk_of self.old).groups }
    {
        let group = self.groups.pop().ok_or(Refusal::NoOpenGroup)?;
        self.end_group()?;
        self.progress = Progress {
            choice: group.choice,
            sequence: group.sequence,
            wanting: false,
            ..self.progress
        };
        Ok(())
    }

    // One token at its place.
    pub(crate) fn take_token(&mut self, place: usize, token: Token<C>) -> Result<(), Refusal>
        requires few { self.old.progress.nodes < 4096 }
        requires counted { self.old.progress.positions < 4096 }
        ensures lent { SameMemory self.new self.old }
        ensures taken { EndsOn (wrote place token (desk_of self.old)) (desk_of self.new) result }
    {
        // a match: tokens are a closed choice, and each step takes what its token holds
        match token {
            Token::Open => self.open_group(place),
            Token::Close => self.close_group(),
            Token::Bar => self.next_branch(),
            Token::Repeat(postfix) => self.repeat_piece(postfix),
            Token::Atom(class) => {
                self.take_atom(class);
                Ok(())
            }
        }
    }

    // The end of the text, at its length: no base may be wanted and no group open.
    pub(crate) fn finish(&mut self, end: usize) -> Result<Counts, Refused>
        requires few { self.old.progress.nodes < 4096 }
        ensures lent { SameMemory self.new self.old }
        ensures result { result ≡ ended end (desk_of self.old).groups self.old.progress }
        ensures nodes { OnOk result (self.new.nodes.now ≡ pattern_nodes self.old.progress self.old.nodes.now) }
        ensures classes { self.new.classes.now ≡ self.old.classes.now }
    {
        if self.progress.wanting {
            return Err(Refusal::BaseWanted.at(end));
        }
        if let Some(group) = self.groups.pop() {
            return Err(Refusal::UnfinishedGroup.at(group.place));
        }
        self.end_pattern();
        Ok(Counts {
            nodes: self.progress.nodes,
            positions: self.progress.positions,
        })
    }
}
