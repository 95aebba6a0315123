//! The option for hints.

use command_line::{Hints, request_of_words};
use std::test::Fail;

#[test]
fn hints_are_told_as_asked(rt: HostRuntime) -> Result<(), Fail> {
    let rows: [(&[&str], Hints); 5] = [
        (&["pmpmon", "plan", "map.txt"], Hints::Auto),
        (
            &["pmpmon", "plan", "map.txt", "--hints", "auto"],
            Hints::Auto,
        ),
        (
            &[
                "pmpmon", "check", "--hints", "always", "map.txt", "map.pmpc",
            ],
            Hints::Always,
        ),
        (
            &["pmpmon", "run", "p.toml", "t.txt", "--hints=never"],
            Hints::Never,
        ),
        (
            &["pmpmon", "lint", "map.txt", "--hints=never"],
            Hints::Never,
        ),
    ];
    for (words, wanted) in rows {
        assert!(rt; request_of_words(rt.alloc(), words)?.options.hints == wanted);
    }
    assert!(rt; Hints::Auto.are_told(true) && !Hints::Auto.are_told(false));
    assert!(rt; Hints::Always.are_told(false) && !Hints::Never.are_told(true));
    Ok(())
}
