// Lines that are understood, lines that are not, tokens, and the lines of scripts.
use crate::{Token, Tokens, fits, line_count, read_line};
use calls::Call;
use std::process::Abort;
use std::test::Fail;

const REFUSED: [&[u8]; 18] = [
    b"",
    b"B",
    b"b 0",
    b"S 1",
    b"R 1",
    b"B 0 0",
    b"W 1 2",
    b"B 00",
    b"C 01",
    b"C 4294967296",
    b"C 99999999999",
    b"B  0",
    b"B 0 ",
    b" B 0",
    b"B 0\r",
    b"B0",
    b"B -1",
    b"BB 0",
];

const SPELLED: [(&[u8], Call); 8] = [
    (b"B 0", Call::Begin(0)),
    (b"R 2 1", Call::Read(2, 1)),
    (b"W 1 0 4294967295", Call::Write(1, 0, 4_294_967_295)),
    (b"C 512", Call::Commit(512)),
    (b"G 7", Call::GiveUp(7)),
    (b"A 3 256", Call::Apply(3, 256)),
    (b"D 2 9", Call::Drain(2, 9)),
    (b"V 1 127", Call::Value(1, 127)),
];

const SCRIPTS: [(&[u8], usize); 6] = [
    (b"", 0),
    (b"\n", 1),
    (b"B 0", 1),
    (b"B 0\n", 1),
    (b"B 0\n\nC 1", 3),
    (b"B 0\n\nC 1\n", 3),
];

#[test]
fn other_forms_are_not(rt: HostRuntime) {
    for line in REFUSED {
        assert_eq!(rt; read_line(line), None);
    }
}

#[test]
fn spellings_are_understood(rt: HostRuntime) {
    for (line, call) in SPELLED {
        assert_eq!(rt; read_line(line), Some(call));
    }
}

#[test]
fn scripts_have_lines(rt: HostRuntime) {
    for (script, count) in SCRIPTS {
        assert_eq!(rt; line_count(script), count);
    }
}

fn cuts(
    rt: &impl Abort,
    line: &[u8],
    letter: &[u8],
    number: &[u8],
    place: usize,
) -> Result<(), Fail> {
    let mut tokens = Tokens::new(line);
    let Some(Token::Letter { bytes, at }) = tokens.cut() else {
        return Err(Fail::new("no letter"));
    };
    assert!(rt; bytes == letter && at == 0);
    let Some(Token::Number { bytes, at }) = tokens.cut() else {
        return Err(Fail::new("no number"));
    };
    assert!(rt; bytes == number && at == place);
    Ok(())
}

#[test]
fn tokens_are_parts_of_their_line(rt: HostRuntime) -> Result<(), Fail> {
    cuts(&rt, b"V 12 7", b"V", b"12", 2)
}

const LINES: [u8; 1025] = [b'\n'; 1025];

const BYTES: [u8; 16385] = [b'B'; 16385];

#[test]
fn long_scripts_do_not_fit(rt: HostRuntime) {
    assert!(rt; fits(&LINES[0..1024]));
    assert!(rt; !fits(&LINES));
    assert!(rt; fits(&BYTES[0..16384]));
    assert!(rt; !fits(&BYTES));
}
