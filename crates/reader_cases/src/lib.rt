// Patterns with what the reader must make of them, worked by hand from the rules of the language: the
// node list and the classes, or the refusal, and what is left in the lent memory. The crate stands
// apart, so that the reader itself is proved only once.
#![tactic(auto)]

#[cfg(test)]
mod tests {
    use byte_kind::Bytes;
    use kinds::Kind;
    use reader::read;
    use reader::records::{Counts, Group};
    use rounds::Rounds;
    use std::alloc::{AllocError, Global};
    use std::iter;
    use std::test::Fail;
    use trees::Node;

    // A node record: kind, a and b, as the numbers that stand in it.
    type Record = (u8, usize, usize);

    // A position, counted from 1, and the first and the last of some symbols that it admits.
    type Range = (usize, usize, usize);

    // Bytes that stand so many times in a text, one after another.
    type Part = (&'static [u8], usize);

    // How many nodes, classes and groups are lent.
    #[derive(Clone, Copy)]
    struct Lent(usize, usize, usize);

    const ENOUGH: Lent = Lent(255, 63, 32);

    const LONGER: Lent = Lent(300, 70, 40);

    const NOTHING: Lent = Lent(0, 0, 0);

    // A node list.
    #[derive(Clone, Copy)]
    enum Nodes {
        Listed(&'static [Record]),
        // atoms one after another, in so many nodes, and then stars up to so many
        Starred(usize, usize),
    }

    // What the positions admit.
    #[derive(Clone, Copy)]
    enum Classes {
        // each position the byte that stands there in the list, and no other
        Letters(&'static [u8]),
        // so many positions, and all that they admit
        Ranges(usize, &'static [Range]),
    }

    // A tree as its node list, and what its positions admit.
    #[derive(Clone, Copy)]
    struct Tree(Nodes, Classes);

    // A refusal's number and place. Not `Refused`: the tables hold the numbers of the listing, and try them too.
    #[derive(Clone, Copy, PartialEq, Eq, Debug)]
    struct Fault {
        number: u8,
        place: usize,
    }

    // The cases of a kind, as constants: each call that made a line would be a step to prove.
    #[derive(Clone, Copy)]
    struct Tables {
        // a text, its node list, and the byte that each position admits
        letters: &'static [(&'static [u8], &'static [Record], &'static [u8])],
        // a text, its node list, how many positions it has, and what they admit
        ranges: &'static [(&'static [u8], &'static [Record], usize, &'static [Range])],
        // a text, and the number and place of its refusal
        refusals: &'static [(&'static [u8], u8, usize)],
        // a text in parts, the memory that is lent, and the tree or the refusal's number and place
        limits: &'static [(&'static [Part], Lent, Result<Tree, (u8, usize)>)],
    }

    const BYTES: Tables = Tables {
        letters: &[
            (b"a", &[(1, 1, 0)], b"a"),
            (b"()", &[(0, 0, 0)], b""),
            (b"((()))", &[(0, 0, 0)], b""),
            (b"()*", &[(0, 0, 0), (4, 0, 0)], b""),
            (
                b"a()b",
                &[(1, 1, 0), (0, 0, 0), (2, 0, 1), (1, 2, 0), (2, 2, 3)],
                b"ab",
            ),
            (b"a|()", &[(1, 1, 0), (0, 0, 0), (3, 0, 1)], b"a"),
            (b"()|a", &[(0, 0, 0), (1, 1, 0), (3, 0, 1)], b"a"),
            (b"(a|())", &[(1, 1, 0), (0, 0, 0), (3, 0, 1)], b"a"),
            (
                b"(()|a)b",
                &[(0, 0, 0), (1, 1, 0), (3, 0, 1), (1, 2, 0), (2, 2, 3)],
                b"ab",
            ),
            (b"a**", &[(1, 1, 0), (4, 0, 0), (4, 1, 0)], b"a"),
            (b"a?+*", &[(1, 1, 0), (6, 0, 0), (5, 1, 0), (4, 2, 0)], b"a"),
            (
                b"a+b?",
                &[(1, 1, 0), (5, 0, 0), (1, 2, 0), (6, 2, 0), (2, 1, 3)],
                b"ab",
            ),
            (
                b"abc",
                &[(1, 1, 0), (1, 2, 0), (2, 0, 1), (1, 3, 0), (2, 2, 3)],
                b"abc",
            ),
            (
                b"a(bc)",
                &[(1, 1, 0), (1, 2, 0), (1, 3, 0), (2, 1, 2), (2, 0, 3)],
                b"abc",
            ),
            (
                b"a|b|c",
                &[(1, 1, 0), (1, 2, 0), (3, 0, 1), (1, 3, 0), (3, 2, 3)],
                b"abc",
            ),
            (
                b"a|(b|c)",
                &[(1, 1, 0), (1, 2, 0), (1, 3, 0), (3, 1, 2), (3, 0, 3)],
                b"abc",
            ),
            (
                b"ab|cd",
                &[
                    (1, 1, 0),
                    (1, 2, 0),
                    (2, 0, 1),
                    (1, 3, 0),
                    (1, 4, 0),
                    (2, 3, 4),
                    (3, 2, 5),
                ],
                b"abcd",
            ),
            (
                b"a*|b",
                &[(1, 1, 0), (4, 0, 0), (1, 2, 0), (3, 1, 2)],
                b"ab",
            ),
            (
                b"a|bc*|d",
                &[
                    (1, 1, 0),
                    (1, 2, 0),
                    (1, 3, 0),
                    (4, 2, 0),
                    (2, 1, 3),
                    (3, 0, 4),
                    (1, 4, 0),
                    (3, 5, 6),
                ],
                b"abcd",
            ),
            (b"(a)(b)", &[(1, 1, 0), (1, 2, 0), (2, 0, 1)], b"ab"),
            (
                b"(a|b)c*",
                &[
                    (1, 1, 0),
                    (1, 2, 0),
                    (3, 0, 1),
                    (1, 3, 0),
                    (4, 3, 0),
                    (2, 2, 4),
                ],
                b"abc",
            ),
            (
                b"(ab)*c",
                &[
                    (1, 1, 0),
                    (1, 2, 0),
                    (2, 0, 1),
                    (4, 2, 0),
                    (1, 3, 0),
                    (2, 3, 4),
                ],
                b"abc",
            ),
            (
                b"a(b|c)d",
                &[
                    (1, 1, 0),
                    (1, 2, 0),
                    (1, 3, 0),
                    (3, 1, 2),
                    (2, 0, 3),
                    (1, 4, 0),
                    (2, 4, 5),
                ],
                b"abcd",
            ),
            (
                b"(a|b)(c|d)",
                &[
                    (1, 1, 0),
                    (1, 2, 0),
                    (3, 0, 1),
                    (1, 3, 0),
                    (1, 4, 0),
                    (3, 3, 4),
                    (2, 2, 5),
                ],
                b"abcd",
            ),
            // what stands around a group goes on behind it where it was
            (
                b"ab(c|d)e|f",
                &[
                    (1, 1, 0),
                    (1, 2, 0),
                    (2, 0, 1),
                    (1, 3, 0),
                    (1, 4, 0),
                    (3, 3, 4),
                    (2, 2, 5),
                    (1, 5, 0),
                    (2, 6, 7),
                    (1, 6, 0),
                    (3, 8, 9),
                ],
                b"abcdef",
            ),
            (
                b"a|b(c|d)e",
                &[
                    (1, 1, 0),
                    (1, 2, 0),
                    (1, 3, 0),
                    (1, 4, 0),
                    (3, 2, 3),
                    (2, 1, 4),
                    (1, 5, 0),
                    (2, 5, 6),
                    (3, 0, 7),
                ],
                b"abcde",
            ),
            (
                b"((a|b)*c)+d",
                &[
                    (1, 1, 0),
                    (1, 2, 0),
                    (3, 0, 1),
                    (4, 2, 0),
                    (1, 3, 0),
                    (2, 3, 4),
                    (5, 5, 0),
                    (1, 4, 0),
                    (2, 6, 7),
                ],
                b"abcd",
            ),
            (
                b"(a|(b|(c|d)))e",
                &[
                    (1, 1, 0),
                    (1, 2, 0),
                    (1, 3, 0),
                    (1, 4, 0),
                    (3, 2, 3),
                    (3, 1, 4),
                    (3, 0, 5),
                    (1, 5, 0),
                    (2, 6, 7),
                ],
                b"abcde",
            ),
            (b"\\(\\|", &[(1, 1, 0), (1, 2, 0), (2, 0, 1)], b"(|"),
            (b"]", &[(1, 1, 0)], b"]"),
        ],
        ranges: &[
            (
                b"[)*]a",
                &[(1, 1, 0), (1, 2, 0), (2, 0, 1)],
                2,
                &[(1, 41, 42), (2, 97, 97)],
            ),
            (
                b"[a-c]*[^a]",
                &[(1, 1, 0), (4, 0, 0), (1, 2, 0), (2, 1, 2)],
                2,
                &[(1, 97, 99), (2, 0, 96), (2, 98, 255)],
            ),
            // a position whose class admits nothing is a position all the same
            (
                b"[^\x00-\xff]|a",
                &[(1, 1, 0), (1, 2, 0), (3, 0, 1)],
                2,
                &[(2, 97, 97)],
            ),
        ],
        refusals: &[
            // a base is wanted
            (b"*", 8, 0),
            (b"+", 8, 0),
            (b"?", 8, 0),
            (b"|", 8, 0),
            (b"|a", 8, 0),
            (b"|)", 8, 0),
            (b"a|", 8, 2),
            (b"a|*", 8, 2),
            (b"a||b", 8, 2),
            (b"()|", 8, 3),
            (b"(", 8, 1),
            (b"(|a)", 8, 1),
            (b"(*a)", 8, 1),
            (b"a(?)", 8, 2),
            (b"(a|)", 8, 3),
            (b"(a|))", 8, 3),
            (b"((a|)", 8, 4),
            // it is missed before the group that has no end
            (b"((", 8, 2),
            (b"(a|", 8, 3),
            (b"(a(", 8, 3),
            (b"()(", 8, 3),
            // nothing is open, whether a base is wanted or not
            (b")", 9, 0),
            (b")*", 9, 0),
            (b"a)", 9, 1),
            (b"a|)", 9, 2),
            (b"())", 9, 2),
            (b"(a))", 9, 3),
            (b"(a)|)", 9, 4),
            // the last group that is still open
            (b"(a", 10, 0),
            (b"(a*", 10, 0),
            (b"(()", 10, 0),
            (b"((a)", 10, 0),
            (b"(a|(b)", 10, 0),
            (b"((a", 10, 1),
            (b"a(b", 10, 1),
            (b"(a(b)c(d", 10, 6),
            // an atom's own fault, wherever the atom stands
            (b"\\", 4, 0),
            (b"(\\", 4, 1),
            (b"(a\\", 4, 2),
            (b"a|\\", 4, 2),
            (b"[", 5, 0),
            (b"([", 5, 1),
            (b"a|[b", 5, 2),
            (b"(a)[)", 5, 3),
            (b"[b-a]", 6, 1),
            (b"a|[c-a]", 6, 3),
            (b"[]", 7, 0),
            (b"(a[]", 7, 2),
            // two faults: the first in reading order
            (b")[b-a]", 9, 0),
            (b"a[b-a])", 6, 2),
            (b"(|[", 8, 1),
            (b"a))[", 9, 1),
            (b"*\\", 8, 0),
            // no byte at all
            (b"", 1, 0),
        ],
        limits: &[
            // 32 groups open together, with an atom and with the empty word in the innermost
            (
                &[(b"(", 32), (b"a", 1), (b")", 32)],
                ENOUGH,
                Ok(Tree(Nodes::Listed(&[(1, 1, 0)]), Classes::Letters(b"a"))),
            ),
            (
                &[(b"(", 32), (b")", 32)],
                ENOUGH,
                Ok(Tree(Nodes::Listed(&[(0, 0, 0)]), Classes::Letters(b""))),
            ),
            // more than 32 groups, never two of them open together
            (
                &[(b"(a)", 40)],
                ENOUGH,
                Ok(Tree(
                    Nodes::Starred(79, 79),
                    Classes::Letters(b"aaaaaaaaaaaaaaaaaaaaaaaaaaaaaaaaaaaaaaaa"),
                )),
            ),
            (
                &[(b"a", 63)],
                ENOUGH,
                Ok(Tree(
                    Nodes::Starred(125, 125),
                    Classes::Letters(
                        b"aaaaaaaaaaaaaaaaaaaaaaaaaaaaaaaaaaaaaaaaaaaaaaaaaaaaaaaaaaaaaaa",
                    ),
                )),
            ),
            (
                &[(b"a", 1), (b"*", 254)],
                ENOUGH,
                Ok(Tree(Nodes::Starred(1, 255), Classes::Letters(b"a"))),
            ),
            // 63 positions and 255 nodes at once, and no letter twice
            (
                &[
                    (
                        b"(ABCDEFGHIJKLMNOPQRSTUVWXYZabcdefghijklmnopqrstuvwxyz0123456789_)",
                        1,
                    ),
                    (b"*", 130),
                ],
                ENOUGH,
                Ok(Tree(
                    Nodes::Starred(125, 255),
                    Classes::Letters(
                        b"ABCDEFGHIJKLMNOPQRSTUVWXYZabcdefghijklmnopqrstuvwxyz0123456789_",
                    ),
                )),
            ),
            // 1,024 bytes
            (
                &[(b"[", 1), (b"a", 1022), (b"]", 1)],
                ENOUGH,
                Ok(Tree(Nodes::Listed(&[(1, 1, 0)]), Classes::Letters(b"a"))),
            ),
            // longer memory is cleared to its end
            (
                &[(b"(a|b)c*", 1)],
                LONGER,
                Ok(Tree(
                    Nodes::Listed(&[
                        (1, 1, 0),
                        (1, 2, 0),
                        (3, 0, 1),
                        (1, 3, 0),
                        (4, 3, 0),
                        (2, 2, 4),
                    ]),
                    Classes::Letters(b"abc"),
                )),
            ),
            // how many groups may be open
            (&[(b"(", 32)], ENOUGH, Err((8, 32))),
            (&[(b"(", 33)], ENOUGH, Err((11, 32))),
            (&[(b"(", 33), (b"a", 1), (b")", 33)], ENOUGH, Err((11, 32))),
            (&[(b"(", 32), (b"()", 1), (b")", 32)], ENOUGH, Err((11, 32))),
            (&[(b"(", 32), (b"a", 1)], ENOUGH, Err((10, 31))),
            (&[(b"(", 32), (b"a(", 1)], ENOUGH, Err((11, 33))),
            (&[(b"(", 32), (b"a)(", 1)], ENOUGH, Err((8, 35))),
            (&[(b"(", 31), (b"()(", 1)], ENOUGH, Err((8, 34))),
            (&[(b"()", 33), (b"(", 33)], ENOUGH, Err((11, 98))),
            // too many positions, too many nodes, or both
            (&[(b"a", 64)], ENOUGH, Err((12, 64))),
            (&[(b"a", 1), (b"*", 255)], ENOUGH, Err((12, 256))),
            (&[(b"()", 129)], ENOUGH, Err((12, 258))),
            (
                &[
                    (
                        b"(ABCDEFGHIJKLMNOPQRSTUVWXYZabcdefghijklmnopqrstuvwxyz0123456789_)",
                        1,
                    ),
                    (b"*", 131),
                ],
                ENOUGH,
                Err((12, 196)),
            ),
            (
                &[(b"(", 32), (b"a", 64), (b")", 32)],
                ENOUGH,
                Err((12, 128)),
            ),
            // the size comes after every other fault
            (&[(b"a", 64), (b")", 1)], ENOUGH, Err((9, 64))),
            (&[(b"a", 64), (b"[b-a]", 1)], ENOUGH, Err((6, 65))),
            (&[(b"a", 64), (b"|", 1)], ENOUGH, Err((8, 65))),
            (&[(b"a", 64), (b"\\", 1)], ENOUGH, Err((4, 64))),
            (&[(b"a", 64), (b"(", 33)], ENOUGH, Err((11, 96))),
            (&[(b"a", 64), (b"(b", 1)], ENOUGH, Err((10, 64))),
            (&[(b"a", 1), (b"*", 300), (b")", 1)], ENOUGH, Err((9, 301))),
            // 1,024 bytes
            (&[(b"a", 1024)], ENOUGH, Err((12, 1024))),
            (&[(b"a", 1), (b"*", 1023)], ENOUGH, Err((12, 1024))),
            (&[(b"a|", 511), (b"aa", 1)], ENOUGH, Err((12, 1024))),
            (&[(b"a|", 512)], ENOUGH, Err((8, 1024))),
            (&[(b"a", 1023), (b"[", 1)], ENOUGH, Err((5, 1023))),
            (&[(b"(", 1024)], ENOUGH, Err((11, 32))),
            // a byte more
            (&[(b"a", 1025)], ENOUGH, Err((1, 0))),
            (&[(b")", 1025)], ENOUGH, Err((1, 0))),
            (&[(b"[", 1), (b"a", 1023), (b"]", 1)], ENOUGH, Err((1, 0))),
            // memory that is too short, whatever the text
            (&[(b"a", 1)], Lent(254, 63, 32), Err((2, 0))),
            (&[(b"a", 1)], Lent(255, 62, 32), Err((2, 0))),
            (&[(b"a", 1)], Lent(255, 63, 31), Err((2, 0))),
            (&[(b"a", 1)], Lent(254, 70, 40), Err((2, 0))),
            (&[(b"a", 1)], Lent(300, 62, 40), Err((2, 0))),
            (&[(b"a", 1)], Lent(300, 70, 31), Err((2, 0))),
            (&[(b"a", 1)], NOTHING, Err((2, 0))),
            (&[(b")", 1)], Lent(254, 63, 32), Err((2, 0))),
            (&[(b"[", 1)], Lent(255, 63, 31), Err((2, 0))),
            (&[], NOTHING, Err((1, 0))),
            (&[(b"a", 1025)], Lent(254, 62, 31), Err((1, 0))),
            // longer memory moves no limit, and is cleared to its end
            (&[(b"(a", 1)], LONGER, Err((10, 0))),
            (&[(b"a", 64)], LONGER, Err((12, 64))),
            (&[(b"a", 1), (b"*", 255)], LONGER, Err((12, 256))),
            (&[(b"(", 33)], LONGER, Err((11, 32))),
            (&[(b"a", 1025)], LONGER, Err((1, 0))),
        ],
    };

    // Rounds by number: Ww 0, Dw 1, Lw 2, Wb 3, Db 4, Lb 5, Wu 6, Du 7, Lu 8.
    const ROUNDS: Tables = Tables {
        letters: &[],
        ranges: &[
            (
                b"LLWb",
                &[(1, 1, 0), (1, 2, 0), (2, 0, 1), (1, 3, 0), (2, 2, 3)],
                3,
                &[
                    (1, 2, 2),
                    (1, 5, 5),
                    (1, 8, 8),
                    (2, 2, 2),
                    (2, 5, 5),
                    (2, 8, 8),
                    (3, 3, 3),
                ],
            ),
            (
                b"W|D",
                &[(1, 1, 0), (1, 2, 0), (3, 0, 1)],
                2,
                &[
                    (1, 0, 0),
                    (1, 3, 3),
                    (1, 6, 6),
                    (2, 1, 1),
                    (2, 4, 4),
                    (2, 7, 7),
                ],
            ),
            (
                b"(Ww|Lb)*.",
                &[
                    (1, 1, 0),
                    (1, 2, 0),
                    (3, 0, 1),
                    (4, 2, 0),
                    (1, 3, 0),
                    (2, 3, 4),
                ],
                3,
                &[(1, 0, 0), (2, 5, 5), (3, 0, 8)],
            ),
            (
                b"[^W]+[WD]",
                &[(1, 1, 0), (5, 0, 0), (1, 2, 0), (2, 1, 2)],
                2,
                &[
                    (1, 1, 2),
                    (1, 4, 5),
                    (1, 7, 8),
                    (2, 0, 1),
                    (2, 3, 4),
                    (2, 6, 7),
                ],
            ),
            (b"()", &[(0, 0, 0)], 0, &[]),
        ],
        refusals: &[
            (b"w", 3, 0),
            (b"Www", 3, 2),
            (b"(X", 3, 1),
            (b"W|\\", 3, 2),
            (b"[W.", 3, 2),
            (b"[Ww", 5, 0),
            (b"(W[L", 5, 2),
            (b"W[]", 7, 1),
            (b"*", 8, 0),
            (b"Wb|", 8, 3),
            (b"Lu)", 9, 2),
            (b"W(L", 10, 1),
            (b")w", 9, 0),
            (b"w)", 3, 0),
        ],
        limits: &[
            (&[(b"Wb", 64)], ENOUGH, Err((12, 128))),
            (&[(b"Wb", 64), (b"b", 1)], ENOUGH, Err((3, 128))),
            (&[(b"W", 1)], Lent(255, 62, 32), Err((2, 0))),
            (&[(b"w", 1)], LONGER, Err((3, 0))),
        ],
    };

    // What stands in the lent records before the call: nothing that reading would leave there.
    const OLD_NODE: Node = Node {
        kind: 9,
        a: 1000,
        b: 1001,
    };

    const OLD_GROUP: Group = Group {
        place: 2000,
        choice: 2001,
        sequence: 2002,
    };

    fn spelled(heap: Global, parts: &[Part]) -> Result<Vec<u8>, AllocError> {
        parts
            .iter()
            .flat_map(|(bytes, times)| iter::repeat_n(*bytes, *times))
            .flatten()
            .copied()
            .collect(heap)
    }

    const fn record(kind: u8, a: usize, b: usize) -> Node {
        Node { kind, a, b }
    }

    fn counts(tree: Tree) -> Counts {
        let Tree(nodes, classes) = tree;
        Counts {
            nodes: match nodes {
                Nodes::Listed(list) => list.len(),
                Nodes::Starred(_, all) => all,
            },
            positions: match classes {
                Classes::Letters(letters) => letters.len(),
                Classes::Ranges(positions, _) => positions,
            },
        }
    }

    // Node i of a list, which is cleared beyond its end.
    fn listed(nodes: Nodes, i: usize) -> Node {
        match nodes {
            Nodes::Listed(list) => match list.get(i) {
                Some((kind, a, b)) => record(*kind, *a, *b),
                None => record(0, 0, 0),
            },
            Nodes::Starred(row, all) => {
                if i >= all {
                    record(0, 0, 0)
                } else if i == 0 {
                    record(1, 1, 0)
                } else if i >= row {
                    record(4, i - 1, 0)
                } else if i % 2 == 1 {
                    // behind the first atom, each has its node and then the sequence that ends in it
                    record(1, i / 2 + 2, 0)
                } else {
                    record(2, i.saturating_sub(2), i - 1)
                }
            }
        }
    }

    // Whether class i, counted from 0, admits symbol n; beyond the last position it admits nothing.
    fn admits(classes: Classes, i: usize, n: usize) -> bool {
        match classes {
            Classes::Letters(letters) => letters
                .get(i)
                .is_some_and(|letter| usize::from(*letter) == n),
            Classes::Ranges(_, ranges) => ranges.iter().any(|(position, first, last)| {
                position.checked_sub(1) == Some(i) && (*first..=*last).contains(&n)
            }),
        }
    }

    // Node i as reading leaves it: refusals 1 and 2 leave the lent memory as it was, and every other
    // refusal clears it.
    fn node_left(wanted: Result<Tree, Fault>, i: usize) -> Node {
        match wanted {
            Ok(Tree(nodes, _)) => listed(nodes, i),
            Err(Fault { number: 1 | 2, .. }) => OLD_NODE,
            Err(_) => record(0, 0, 0),
        }
    }

    fn nodes_left(wanted: Result<Tree, Fault>, nodes: &[Node]) -> bool {
        nodes
            .iter()
            .enumerate()
            .all(|(i, left)| *left == node_left(wanted, i))
    }

    // Whether class i, counted from 0, is as reading leaves it.
    fn class_left<K: Kind>(
        wanted: Result<Tree, Fault>,
        old: K::Class,
        i: usize,
        left: K::Class,
    ) -> bool {
        (0..K::symbols()).all(|n| {
            K::symbol_of(n).is_some_and(|symbol| {
                let admitted = match wanted {
                    Ok(Tree(_, classes)) => admits(classes, i, n),
                    Err(Fault { number: 1 | 2, .. }) => K::admitted(old, symbol),
                    Err(_) => false,
                };
                K::admitted(left, symbol) == admitted
            })
        })
    }

    fn classes_left<K: Kind>(
        wanted: Result<Tree, Fault>,
        old: K::Class,
        classes: &[K::Class],
    ) -> bool {
        classes
            .iter()
            .enumerate()
            .all(|(i, left)| class_left::<K>(wanted, old, i, *left))
    }

    fn groups_left(wanted: Result<Tree, Fault>, groups: &[Group]) -> bool {
        let group = match wanted {
            Err(Fault { number: 1 | 2, .. }) => OLD_GROUP,
            _ => Group {
                place: 0,
                choice: 0,
                sequence: 0,
            },
        };
        groups.iter().all(|left| *left == group)
    }

    fn holds<K: Kind>(
        heap: Global,
        text: &[u8],
        lent: Lent,
        wanted: Result<Tree, Fault>,
    ) -> Result<bool, AllocError> {
        // `.` admits something in both kinds, so that a class that is not cleared is seen
        let Ok(dot) = K::read_atom(b".", 0) else {
            return Ok(false);
        };
        let Lent(node_count, class_count, group_count) = lent;
        let mut nodes = vec![in heap; OLD_NODE; node_count]?;
        let mut classes = vec![in heap; dot.class; class_count]?;
        let mut groups = vec![in heap; OLD_GROUP; group_count]?;
        let read = read::<K>(
            text,
            nodes.as_mut_slice(),
            classes.as_mut_slice(),
            groups.as_mut_slice(),
        )
        .map_err(|refused| Fault {
            number: u8::from(refused.refusal),
            place: refused.place,
        });
        Ok(
            read == wanted.map(counts)
                && nodes_left(wanted, nodes.as_slice())
                && classes_left::<K>(wanted, dot.class, classes.as_slice())
                && groups_left(wanted, groups.as_slice()),
        )
    }

    // The first line of a table that does not hold, counted from 0.
    fn first_wrong_line<L, F: Fn(&L) -> Result<bool, AllocError>>(
        lines: &[L],
        holds: F,
    ) -> Result<Option<usize>, AllocError>
        requires { F.IsAlwaysCallable holds }
    {
        // a for: memory can run out before a line is known to hold
        for (i, line) in lines.iter().enumerate() {
            if !holds(line)? {
                return Ok(Some(i));
            }
        }
        Ok(None)
    }

    // The first line that does not hold, with its table, counted from 0.
    fn first_wrong<K: Kind>(
        heap: Global,
        tables: Tables,
    ) -> Result<Option<(&'static str, usize)>, AllocError> {
        let letters = first_wrong_line(tables.letters, |&(text, nodes, letters)| {
            let tree = Tree(Nodes::Listed(nodes), Classes::Letters(letters));
            holds::<K>(heap, text, ENOUGH, Ok(tree))
        })?;
        let ranges = first_wrong_line(tables.ranges, |&(text, nodes, positions, ranges)| {
            let tree = Tree(Nodes::Listed(nodes), Classes::Ranges(positions, ranges));
            holds::<K>(heap, text, ENOUGH, Ok(tree))
        })?;
        let refusals = first_wrong_line(tables.refusals, |&(text, number, place)| {
            holds::<K>(heap, text, ENOUGH, Err(Fault { number, place }))
        })?;
        let limits = first_wrong_line(tables.limits, |&(parts, lent, wanted)| {
            let text = spelled(heap, parts)?;
            let wanted = wanted.map_err(|(number, place)| Fault { number, place });
            holds::<K>(heap, text.as_slice(), lent, wanted)
        })?;
        Ok(
            letters
                .map(|i| ("letters", i))
                .or(ranges.map(|i| ("ranges", i)))
                .or(refusals.map(|i| ("refusals", i)))
                .or(limits.map(|i| ("limits", i))),
        )
    }

    #[test]
    fn bytes_as_worked_by_hand(rt: HostRuntime) -> Result<(), Fail> {
        assert_eq!(rt; first_wrong::<Bytes>(rt.alloc(), BYTES)?, None);
        Ok(())
    }

    #[test]
    fn rounds_as_worked_by_hand(rt: HostRuntime) -> Result<(), Fail> {
        assert_eq!(rt; first_wrong::<Rounds>(rt.alloc(), ROUNDS)?, None);
        Ok(())
    }
}
