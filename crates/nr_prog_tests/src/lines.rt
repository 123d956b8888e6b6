//! Damaged lines, long lines, and inputs of 64 bytes where no more are allowed.
use crate::devices::{Kind, Outcome, Trial};
use nr_text::RunFault;
use std::alloc::AllocError;
use std::process::Abort;
use std::test::Fail;

/// A line: its front, a piece that follows that many times, and its reply.
type Line = (&'static str, &'static str, usize, &'static str);

const OF_SCRIPTS: [Line; 22] = [
    ("find 1 ", "a", 255, "hole"),
    ("find 1 ", "a", 256, "too-long"),
    ("find 1 ", "a", 4089, "too-long"),
    ("find 1 ", "a", 4090, "bad"),
    ("find 1 ", "a", 8993, "bad"),
    ("find 1 a\r", "", 0, "bad"),
    ("find  1 a", "", 0, "bad"),
    ("find 1  a", "", 0, "bad"),
    ("find 1 a ", "", 0, "bad"),
    (" find 1 a", "", 0, "bad"),
    ("find 1 a\0", "", 0, "bad"),
    ("find 1 \x1f", "", 0, "bad"),
    ("find 1 ~", "", 0, "hole"),
    ("find 1 \x7f", "", 0, "bad"),
    ("find 1 \u{e9}", "", 0, "bad"),
    ("find 000000000000000000001 a", "", 0, "bad"),
    ("find 00000000000000000001 a", "", 0, "hole"),
    ("find 18446744073709551616 a", "", 0, "bad"),
    ("find 18446744073709551615 a", "", 0, "no-reader"),
    ("update a", " +1:1", 0, "bad"),
    ("update a", " +1:1", 64, "dropped"),
    ("update a", " +1:1", 65, "bad"),
];

const OF_SCHEDULES: [Line; 14] = [
    ("writer fill 0000", " 1:1", 1020, "too-many"),
    ("writer fill 00000", " 1:1", 1020, "bad"),
    ("arrive 1 0\r", "", 0, "bad"),
    ("arrive  1 0", "", 0, "bad"),
    ("arrive 1 0 ", "", 0, "bad"),
    (" arrive 1 0", "", 0, "bad"),
    ("arrive 1 0\0", "", 0, "bad"),
    ("arrive 000000000000000000001 0", "", 0, "bad"),
    ("arrive 00000000000000000001 0", "", 0, "hole"),
    ("arrive 18446744073709551616 0", "", 0, "bad"),
    ("arrive 18446744073709551615 0", "", 0, "out-of-range"),
    ("writer update 0", " +1:1", 0, "bad"),
    ("writer update 0", " +1:1", 64, "dropped"),
    ("writer update 0", " +1:1", 65, "bad"),
];

/// Runs the line after an opening one, and before one that opens again.
fn answers(
    rt: &(impl Abort + AllocGlobal),
    kind: Kind,
    opening: &str,
    line: &Line,
) -> Result<(), AllocError> {
    let (front, piece, times, reply) = *line;
    let pieces = piece.repeat(rt.alloc(), times)?;
    let input = format!(in rt.alloc(); "{opening}\n{front}{pieces}\n{opening}\n")?;
    let text = format!(in rt.alloc(); "ok\n{reply}\nbad\n")?;
    let trial = Trial::new(kind, input.as_bytes(), text.as_bytes());
    assert_eq!(rt; trial.run(rt.alloc()), trial.whole(), "{line:?}");
    Ok(())
}

#[test]
fn damaged_lines_of_scripts_are_bad(rt: HostRuntime) -> Result<(), Fail> {
    for line in &OF_SCRIPTS {
        answers(&rt, Kind::Script, "open-named 1 2 1", line)?;
    }
    Ok(())
}

#[test]
fn damaged_lines_of_schedules_are_bad(rt: HostRuntime) -> Result<(), Fail> {
    for line in &OF_SCHEDULES {
        answers(&rt, Kind::Schedule, "open 1 2 1", line)?;
    }
    Ok(())
}

/// A line that ends, and 64 bytes of another.
const INPUT: &[u8; 72] =
    b"ask 1 0\naaaaaaaaaaaaaaaaaaaaaaaaaaaaaaaaaaaaaaaaaaaaaaaaaaaaaaaaaaaaaaaa";

/// Where 64 bytes are allowed, each front of the input that ends in the second line.
fn ends_by_64(rt: &(impl Abort + AllocGlobal), kind: Kind) {
    for bytes in 9..=72 {
        let (end, text): (_, &[u8]) = if bytes <= 64 {
            (Ok(()), b"closed\nbad\n")
        } else {
            (Err(RunFault::TooMuch), b"closed\n")
        };
        let trial = Trial {
            limit: 64,
            ..Trial::new(kind, &INPUT[..bytes], text)
        };
        let wanted = Outcome {
            end,
            ..trial.whole()
        };
        assert_eq!(rt; trial.run(rt.alloc()), wanted, "{bytes} bytes");
    }
}

#[test]
fn an_input_of_64_bytes_may_be_allowed_and_no_more(rt: HostRuntime) {
    ends_by_64(&rt, Kind::Script);
    ends_by_64(&rt, Kind::Schedule);
}
