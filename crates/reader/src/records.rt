ghost use Rattle.std.specs.Prelude.{◌≡◌};
ghost use Rattle.reader.specs.Call.{cleared_group};

// What is set aside of an outer pattern at the `(` of a group: the place of the `(`, and the outer
// pattern's `choice` and `sequence` (see `Progress`). A cleared record is all zeros.
#[derive(Clone, Copy, PartialEq, Eq, Debug)]
pub struct Group {
    pub place: usize,
    pub choice: usize,
    pub sequence: usize,
}

impl Group {
    // What is left where memory is cleared: all zeros. Not a derived `Default`, which would be no plainer: its
    // name says not what it is for, and no clause what it is.
    pub fn cleared() -> Group
        ensures { result ≡ cleared_group }
    {
        Group {
            place: 0,
            choice: 0,
            sequence: 0,
        }
    }
}

// How far the reading has come in the innermost pattern that is not finished, and how many nodes and
// positions there are so far. They are counted on when there is no place left for them. `choice` and
// `sequence` are no options: they are set aside in a group record, which is plain numbers and, cleared, all
// zeros. Nor is `wanting` one of `sequence`, whose number would be 0 or more in it all the same.
#[derive(Clone, Copy)]
pub struct Progress {
    pub nodes: usize,
    pub positions: usize,
    // nodes up to the root of the branches before the present one, or 0 when there are none
    pub choice: usize,
    // nodes up to the root of the pieces before the last one in the branch, or 0 when there are none
    pub sequence: usize,
    // whether a base is wanted; otherwise the last node is the root of the branch's last piece
    pub wanting: bool,
}

// How many nodes and positions an accepted pattern has.
#[derive(Clone, Copy, PartialEq, Eq, Debug, Default)]
pub struct Counts {
    pub nodes: usize,
    pub positions: usize,
}
