// Answers as they are printed, and buffers that are too short.
use crate::Printed;
use std::process::Abort;
use std::test::Fail;

const PRINTED: [(Printed, &[u8]); 7] = [
    (Printed::Ok, b"ok\n"),
    (Printed::OkNumber(0), b"ok 0\n"),
    (Printed::OkNumber(4_294_967_295), b"ok 4294967295\n"),
    (Printed::OkRead, b"ok read\n"),
    (Printed::Abort(10), b"abort 10\n"),
    (
        Printed::No {
            number: 26,
            line: 16,
        },
        b"no 26 16\n",
    ),
    (
        Printed::No {
            number: 4_294_967_295,
            line: 4_294_967_295,
        },
        b"no 4294967295 4294967295\n",
    ),
];

// printed at place 2 among dots: the bytes around the answer stay
fn prints(rt: &impl Abort, answer: Printed, line: &[u8]) -> Result<(), Fail> {
    let mut buf = [b'.'; 40];
    let end = answer.print(&mut buf, 2).ok_or("no room")?;
    assert!(rt; end == 2 + answer.length() && end < 40);
    assert!(rt; &buf[2..end] == line && buf[1] == b'.' && buf[end] == b'.');
    Ok(())
}

#[test]
fn answers_are_printed(rt: HostRuntime) -> Result<(), Fail> {
    for (answer, line) in PRINTED {
        prints(&rt, answer, line)?;
    }
    Ok(())
}

#[test]
fn short_buffers_are_refused(rt: HostRuntime) {
    let mut buf = [b'.'; 8];
    assert_eq!(rt; Printed::Abort(1).print(&mut buf, 1), None);
    assert_eq!(rt; Printed::Ok.print(&mut buf, 9), None);
    assert_eq!(rt; buf, [b'.'; 8]);
}
