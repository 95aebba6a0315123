//! Names as displayed in messages.

use program_files::shown;
use std::alloc::Global;
use std::process::Abort;

/// Asserts how each name is displayed.
fn are_shown(rt: &impl Abort, alloc: Global, rows: &[(&str, &str)]) {
    for (name, wanted) in rows {
        let text = shown(alloc, name.as_bytes()).expect(rt, "memory");
        assert!(rt; text.as_slice() == wanted.as_bytes(), "{wanted}");
    }
}

#[test]
fn control_characters_are_escaped(rt: HostRuntime) {
    are_shown(
        &rt,
        rt.alloc(),
        &[
            ("", ""),
            ("boards/a b.map", "boards/a b.map"),
            ("a\nb\x1b[31m", "a\\x0ab\\x1b[31m"),
            ("\x01\x1f \x7f\\", "\\x01\\x1f \\x7f\\"),
            (
                "\u{80}a\u{9b}31m\u{9f}",
                "\\xc2\\x80a\\xc2\\x9b31m\\xc2\\x9f",
            ),
            ("\u{a0}\u{e9}\u{2028}", "\u{a0}\u{e9}\u{2028}"),
        ],
    )
}
