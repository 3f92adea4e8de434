ghost use Rattle.std.specs.Prelude.{◌≤◌, ◌<◌, ◌≡◌};

use mn_gen::gen_script;
use mn_script::{split_line, write_script};
use std::alloc::Global;
use std::test::Fail;

/// The line of this number, counted from 1; beyond the last one it is empty.
fn line_of(text: &[u8], number: u32) -> &[u8] {
    let mut rest = text;
    for _ in 1..number {
        if rest.is_empty() {
            return rest;
        }
        let (_, behind) = split_line(rest);
        rest = behind;
    }
    if rest.is_empty() {
        return rest;
    }
    let (line, _) = split_line(rest);
    line
}

/// Whether the text has each of these lines at its number.
fn has_lines(text: &[u8], lines: &[(u32, &[u8])]) -> bool {
    for (number, line) in lines {
        if line_of(text, *number) != *line {
            return false;
        }
    }
    true
}

/// The lines that the script has for each number of nodes and each number.
const FRAME: &[(u32, &[u8])] = &[
    (2, b"recoverers 2"),
    (3, b"client s first"),
    (4, b"tx main put c0a0 100"),
    (12, b"tx main put c1a0 100"),
    (67, b"tx main put c7a7 100"),
    (68, b"snapshot main w"),
    (69, b"client c0"),
    (119, b"scan main % % 64"),
    (170, b"branch main x"),
    (469, b"scan main % % 64"),
    (470, b"client c1"),
    (3276, b"scan main % % 64"),
    (3277, b"client z last"),
    (3278, b"snapshot w w2"),
    (3279, b"scan w % % 64"),
    (3283, b""),
];

/// Lines of the script of number 7 for four nodes: the first draws; both versions of `c0`; the last
/// odd operation; the first of `c1`, whose draws go on; a transfer of all that an account has, and
/// one of nothing; the stops.
const OF_SEVEN: &[(u32, &[u8])] = &[
    (1, b"nodes 4"),
    (
        70,
        b"tx w check c0a6 is 100 ; check c0a3 is 100 ; put c0a6 96 ; put c0a3 104",
    ),
    (
        71,
        b"tx w check c0a1 is 100 ; check c0a3 is 104 ; put c0a1 90 ; put c0a3 114",
    ),
    (
        171,
        b"tx w check c0a3 is 76 ; check c0a6 is 90 ; put c0a3 74 ; put c0a6 92",
    ),
    (
        172,
        b"tx x check c0a3 is 100 ; check c0a0 is 100 ; put c0a3 91 ; put c0a0 109",
    ),
    (
        468,
        b"tx x check c0a2 is 51 ; check c0a1 is 108 ; put c0a2 43 ; put c0a1 116",
    ),
    (
        471,
        b"tx w check c1a6 is 100 ; check c1a0 is 100 ; put c1a6 96 ; put c1a0 104",
    ),
    (
        780,
        b"tx w check c1a4 is 5 ; check c1a1 is 133 ; put c1a4 0 ; put c1a1 138",
    ),
    (
        786,
        b"tx w check c1a4 is 0 ; check c1a3 is 11 ; put c1a4 0 ; put c1a3 11",
    ),
    (
        3275,
        b"tx w check c7a5 is 24 ; check c7a3 is 106 ; put c7a5 20 ; put c7a3 110",
    ),
    (3280, b"stop 1 c1 30 after"),
    (3281, b"stop 2 c2 60 half"),
    (3282, b"stop 3 c3 90 before"),
];

/// The same of the greatest number for eight nodes.
const OF_GREATEST: &[(u32, &[u8])] = &[
    (1, b"nodes 8"),
    (
        70,
        b"tx w check c0a0 is 100 ; check c0a4 is 100 ; put c0a0 92 ; put c0a4 108",
    ),
    (
        172,
        b"tx x check c0a3 is 100 ; check c0a2 is 100 ; put c0a3 98 ; put c0a2 102",
    ),
    (
        468,
        b"tx x check c0a1 is 77 ; check c0a7 is 149 ; put c0a1 67 ; put c0a7 159",
    ),
    (
        3275,
        b"tx w check c7a3 is 112 ; check c7a4 is 51 ; put c7a3 106 ; put c7a4 57",
    ),
    (3282, b"stop 3 c3 90 before"),
];

/// One node has all stops.
const ON_ONE_NODE: &[(u32, &[u8])] = &[
    (1, b"nodes 1"),
    (3280, b"stop 0 c1 30 after"),
    (3281, b"stop 0 c2 60 half"),
    (3282, b"stop 0 c3 90 before"),
];

/// Whether the script of this number has these lines and those of each script.
fn is_generated(alloc: Global, nodes: u8, number: u64, lines: &[(u32, &[u8])]) -> Result<bool, Fail>
    requires { (1 ≤ nodes) × (nodes ≤ 8) }
{
    let script = gen_script(alloc, nodes, number)?;
    let text = write_script(alloc, &script)?;
    Ok(has_lines(text.as_slice(), FRAME) && has_lines(text.as_slice(), lines))
}

#[test]
fn scripts_are_made_from_numbers(rt: HostRuntime) -> Result<(), Fail> {
    let alloc = rt.alloc();
    assert!(rt; is_generated(alloc, 4, 7, OF_SEVEN)?);
    assert!(rt; is_generated(alloc, 8, u64::MAX, OF_GREATEST)?);
    assert!(rt; is_generated(alloc, 1, 0, ON_ONE_NODE)?);
    Ok(())
}
