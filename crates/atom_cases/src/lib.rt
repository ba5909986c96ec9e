// Atoms with what each kind must make of them, worked by hand from the rules of the language: a table
// for each kind. The crate stands apart, so that the kinds themselves are proved only once.
#![tactic(auto)]

#[cfg(test)]
mod tests {
    use byte_kind::Bytes;
    use kinds::Kind;
    use rounds::Rounds;

    // A refusal's number and place. Not `Refused`: the tables hold the numbers of the listing, and try them too.
    #[derive(Clone, Copy, PartialEq, Eq, Debug)]
    struct Fault {
        number: u8,
        place: usize,
    }

    // The text, the place, the length of the atom that is read there or its fault, and the numbers of
    // the symbols that are admitted, as ranges with both ends.
    #[derive(Clone, Copy)]
    struct Case {
        text: &'static [u8],
        place: usize,
        length: Result<usize, Fault>,
        admits: &'static [(usize, usize)],
    }

    const fn read(text: &'static [u8], length: usize, admits: &'static [(usize, usize)]) -> Case {
        Case {
            text,
            place: 0,
            length: Ok(length),
            admits,
        }
    }

    const fn refused(text: &'static [u8], number: u8, at: usize) -> Case {
        Case {
            text,
            place: 0,
            length: Err(Fault { number, place: at }),
            admits: &[],
        }
    }

    fn within(ranges: &[(usize, usize)], n: usize) -> bool {
        ranges
            .iter()
            .any(|(first, last)| (*first..=*last).contains(&n))
    }

    fn admits_exactly<K: Kind>(class: K::Class, ranges: &[(usize, usize)]) -> bool {
        (0..K::symbols()).all(|n| {
            K::symbol_of(n).is_some_and(|symbol| K::admitted(class, symbol) == within(ranges, n))
        })
    }

    fn holds<K: Kind>(case: &Case) -> bool {
        let read = K::read_atom(case.text, case.place).map_err(|refused| Fault {
            number: u8::from(refused.refusal),
            place: refused.place,
        });
        match read {
            Ok(atom) => case.length == Ok(atom.length)
                && admits_exactly::<K>(atom.class, case.admits),
            Err(fault) => case.length == Err(fault),
        }
    }

    // The first line of a table that does not hold, counted from 0.
    fn first_wrong<K: Kind>(cases: &[Case]) -> Option<usize> {
        cases.iter().position(|case| !holds::<K>(case))
    }

    #[test]
    fn bytes_as_worked_by_hand(rt: HostRuntime) {
        let cases = [
            read(b"[a-]", 4, &[(45, 45), (97, 97)]),
            read(b"[-a]", 4, &[(45, 45), (97, 97)]),
            read(b"[--a]", 5, &[(45, 97)]),
            read(b"[a-b-c]", 7, &[(45, 45), (97, 99)]),
            read(b"[a-b--z]", 8, &[(45, 122)]),
            read(b"[\\]-a]", 6, &[(93, 97)]),
            read(b"[^^]", 4, &[(0, 93), (95, 255)]),
            read(b"[\\^]", 4, &[(94, 94)]),
            read(b"[a^]", 4, &[(94, 94), (97, 97)]),
            read(b"[[.(]", 5, &[(40, 40), (46, 46), (91, 91)]),
            read(b"[a\\-z]", 6, &[(45, 45), (97, 97), (122, 122)]),
            read(b"[\\\\]", 4, &[(92, 92)]),
            read(b"[a-a]", 5, &[(97, 97)]),
            read(b"[^-]]", 4, &[(0, 44), (46, 255)]),
            read(b"[\x00-\xff]", 5, &[(0, 255)]),
            read(b"[^\x00-\xff]", 6, &[]),
            read(b"[\x80-\xff]b", 5, &[(128, 255)]),
            read(b"[a-\\z]", 6, &[(97, 122)]),
            read(b"[\\a-\\c]", 7, &[(97, 99)]),
            read(b".", 1, &[(0, 9), (11, 255)]),
            read(b"\\.", 2, &[(46, 46)]),
            read(b"\\\\a", 2, &[(92, 92)]),
            read(b"\n", 1, &[(10, 10)]),
            read(b"\xe9a", 1, &[(233, 233)]),
            read(b"a", 1, &[(97, 97)]),
            read(b"]", 1, &[(93, 93)]),
            read(b"-", 1, &[(45, 45)]),
            read(b"^", 1, &[(94, 94)]),
            read(b"{", 1, &[(123, 123)]),
            refused(b"[a-\\]]", 6, 1),
            refused(b"[b-a]", 6, 1),
            refused(b"[\\b-\\a]", 6, 1),
            refused(b"[xb-a", 6, 2),
            refused(b"[^\\b-a", 6, 2),
            refused(b"[]", 7, 0),
            refused(b"[^]", 7, 0),
            refused(b"[]a]", 7, 0),
            refused(b"[a-", 5, 0),
            refused(b"[a\\", 5, 0),
            refused(b"[a-\\", 5, 0),
            refused(b"[", 5, 0),
            refused(b"[^", 5, 0),
            refused(b"[ab", 5, 0),
            refused(b"\\", 4, 0),
            refused(b"(", 3, 0),
            refused(b")", 3, 0),
            refused(b"|", 3, 0),
            refused(b"*", 3, 0),
            refused(b"+", 3, 0),
            refused(b"?", 3, 0),
            refused(b"", 3, 0),
            Case {
                place: 2,
                ..refused(b"xy[b-a]", 6, 3)
            },
            Case {
                place: 1,
                ..refused(b"a\\", 4, 1)
            },
            Case {
                place: 1,
                ..refused(b"a[b", 5, 1)
            },
            Case {
                place: 1,
                ..refused(b"a[]", 7, 1)
            },
            Case {
                place: 1,
                ..refused(b"a", 3, 1)
            },
            Case {
                place: 9,
                ..refused(b"a", 3, 9)
            },
            Case {
                place: 2,
                ..read(b"ab[c]", 3, &[(99, 99)])
            },
        ];
        assert_eq!(rt; first_wrong::<Bytes>(&cases), None);
    }

    // Rounds by number: Ww 0, Dw 1, Lw 2, Wb 3, Db 4, Lb 5, Wu 6, Du 7, Lu 8.
    #[test]
    fn rounds_as_worked_by_hand(rt: HostRuntime) {
        let cases = [
            read(b"Wb", 2, &[(3, 3)]),
            read(b"W", 1, &[(0, 0), (3, 3), (6, 6)]),
            read(b"D", 1, &[(1, 1), (4, 4), (7, 7)]),
            read(b"LL", 1, &[(2, 2), (5, 5), (8, 8)]),
            read(b"Du", 2, &[(7, 7)]),
            read(b"Lw", 2, &[(2, 2)]),
            read(b"Www", 2, &[(0, 0)]),
            read(b".", 1, &[(0, 8)]),
            read(b"[WwLb]", 6, &[(0, 0), (5, 5)]),
            read(b"[^W]", 4, &[(1, 2), (4, 5), (7, 8)]),
            read(b"[WD]", 4, &[(0, 1), (3, 4), (6, 7)]),
            read(b"[WuW]", 5, &[(0, 0), (3, 3), (6, 6)]),
            read(b"[^WDL]", 6, &[]),
            read(b"[L]]", 3, &[(2, 2), (5, 5), (8, 8)]),
            refused(b"w", 3, 0),
            refused(b"X", 3, 0),
            refused(b"\\W", 3, 0),
            refused(b"]", 3, 0),
            refused(b"^", 3, 0),
            refused(b"(", 3, 0),
            refused(b"?", 3, 0),
            refused(b"", 3, 0),
            refused(b"[.]", 3, 1),
            refused(b"[w]", 3, 1),
            refused(b"[Wwb]", 3, 3),
            refused(b"[^^W]", 3, 2),
            refused(b"[W-D]", 3, 2),
            refused(b"[W.", 3, 2),
            refused(b"[", 5, 0),
            refused(b"[^", 5, 0),
            refused(b"[W", 5, 0),
            refused(b"[Ww", 5, 0),
            refused(b"[]", 7, 0),
            refused(b"[^]", 7, 0),
            Case {
                place: 2,
                ..refused(b"Www", 3, 2)
            },
            Case {
                place: 1,
                ..refused(b"W", 3, 1)
            },
            Case {
                place: 1,
                ..refused(b"W[D.", 3, 3)
            },
            Case {
                place: 2,
                ..refused(b"Ww[", 5, 2)
            },
            Case {
                place: 2,
                ..read(b"LLWb", 2, &[(3, 3)])
            },
        ];
        assert_eq!(rt; first_wrong::<Rounds>(&cases), None);
    }
}
