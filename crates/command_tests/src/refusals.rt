//! Where a text is refused, and for which cause.

use crate::running::{Left, all_are_written};
use command_line::status::REFUSED;
use std::test::Fail;

/// Texts, and how they are refused.
const REFUSALS: &[(&str, &str)] = &[
    ("", "line 1 cause 2\n"),
    ("a 0 1 1\n", "line 1 cause 2\n"),
    ("heap 0 1 2\nend\n", "line 1 cause 3\n"),
    ("heap 4 1 2\nlane\n", "line 3 cause 9\n"),
    ("heap 4 1 2\nlane\na 0 1", "line 3 cause 5\n"),
    ("heap 4 1 2\nlane\na 0 x 1\nend\n", "line 3 cause 6\n"),
    ("heap 4 1 2\nlane\na 1024 1 1\nend\n", "line 3 cause 7\n"),
    ("heap 1 1 64\nlane\na 0 131072 1\nend\n", "line 3 cause 7\n"),
    ("heap 4 1 2\nlane\nr 0 5\nend\n", "line 3 cause 4\n"),
    ("heap2 4 1 2\nlane\nr 0 131072\nend\n", "line 3 cause 7\n"),
    ("heap 4 1 2\na 0 1 1\nend\n", "line 2 cause 4\n"),
    ("heap 4 1 2\nend\nlane\n", "line 3 cause 4\n"),
    (
        "heap 4 1 2\nlane\nlane\nlane\nlane\nlane\nlane\nlane\nlane\nlane\nlane\nlane\nlane\nlane\nlane\nlane\nlane\nlane\n",
        "line 18 cause 8\n",
    ),
    ("heap 4 1 2\n\u{e9}\n", "line 2 cause 1\n"),
    ("heap 4 1 2\nlane\norder 1 5\nend\n", "line 3 cause 7\n"),
];

/// Both commands that run a text refuse each of these so.
#[test]
fn refused_texts_are_told(rt: HostRuntime) -> Result<(), Fail> {
    let ends = (REFUSED, Left::Nothing);
    all_are_written(&rt, "replay", ends, REFUSALS)?;
    all_are_written(&rt, "schedule", ends, REFUSALS)
}
