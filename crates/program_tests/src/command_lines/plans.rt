//! Words that ask for a plan.

use crate::command_lines::tasks::{PLAIN, Row, are_tasks};
use command_line::{Format, Options, Task};
use pmp_encoding::{Limit, Xlen};

const PLANS: &[Row<'static>] = &[
    (
        &["pmpmon", "plan", "map.txt"],
        Task::Plan {
            map: "map.txt",
            cert: None,
            limit: Limit::Sixteen,
        },
        PLAIN,
    ),
    (
        &[
            "pmpmon",
            "plan",
            "-",
            "out.pmpc",
            "--entries",
            "64",
            "--at-most",
            "8",
            "--format",
            "asm",
            "--name",
            "board",
            "--first",
            "3",
            "--xlen",
            "32",
        ],
        Task::Plan {
            map: "-",
            cert: Some("out.pmpc"),
            limit: Limit::SixtyFour,
        },
        Options {
            at_most: Some(8),
            format: Format::Asm,
            name: Some("board"),
            first: 3,
            xlen: Xlen::Rv32,
            ..PLAIN
        },
    ),
    (
        &["pmpmon", "plan", "map.txt", "--format", "c"],
        Task::Plan {
            map: "map.txt",
            cert: None,
            limit: Limit::Sixteen,
        },
        Options {
            format: Format::C,
            ..PLAIN
        },
    ),
];

#[test]
fn plan_takes_a_map_and_maybe_a_certificate(rt: HostRuntime) {
    are_tasks(&rt, rt.alloc(), PLANS);
}
