// Scripts by example: each with its answers, line by line.
use crate::answered;
use std::test::Fail;

// Two stations, a clash, and a station with a hole.
const WORKED: &[u8] =
    b"B 0\nB 1\nR 2 1\nW 1 0 5\nC 1\nA 0 1\nB 1\nW 3 0 7\nC 3\nA 1 1\nR 2 0\nW 2 1 9\nC 2\nA 0 2\nA 2 2\nB 2\nD 2 9\nV 2 0\nV 1 1\n";

const WORKED_ANSWERS: &[u8] =
    b"ok 1\nok 2\nok 0\nok\nok 1\nok\nok 3\nok\nabort 1\nok\nok 0\nok\nok 2\nok\nok\nno 26 16\nok 1\nok 5\nok 0\n";

// Every refusal that a short script can meet.
const REFUSALS: &[u8] =
    b"B 4\nB 0\nR 9 0\nR 0 0\nR 1 128\nW 1 0 13\nW 1 8 12\nW 1 8 13\nW 1 128 0\nA 0 0\nA 0 1\nV 0 128\nV 4 0\n\nX 1\nB  0\nB 00\nB 4294967296\nB 0 \nW 1 1\nC 1 1\nD 4294967295 1\nC 1\nR 1 0\nC 1\nG 1\nA 0 1\nA 0 1\nD 1 0\nD 1 4294967295\nB 2\nC 2\nB 3\nW 3 0 1\nW 3 1 1\nW 3 2 1\nW 3 3 1\nW 3 4 1\nW 3 5 1\nW 3 6 1\nW 3 7 4294967295\nW 3 7 1\nW 3 9 1\nG 3\nG 3\nW 3 0 1\n";

const REFUSALS_ANSWERS: &[u8] =
    b"no 1 1\nok 1\nno 2 3\nno 2 4\nno 3 5\nno 5 6\nok\nno 5 8\nno 3 9\nno 4 10\nno 4 11\nno 3 12\nno 1 13\nno 7 14\nno 7 15\nno 7 16\nno 7 17\nno 7 18\nno 7 19\nno 7 20\nno 7 21\nno 1 22\nok 1\nno 29 24\nno 29 25\nno 29 26\nok\nno 32 28\nok 0\nok 1\nok 2\nok read\nok 3\nok\nok\nok\nok\nok\nok\nok\nok\nok\nno 30 43\nok\nno 29 45\nno 29 46\n";

// Applications that are held back and later let through.
const ORDER: &[u8] =
    b"B 0\nW 1 0 1\nC 1\nA 0 1\nB 0\nW 2 0 2\nW 2 8 3\nC 2\nA 0 2\nB 0\nW 3 8 4\nC 3\nA 1 3\nA 1 2\nA 1 1\nA 1 3\nA 1 2\nA 1 3\nV 1 0\nV 1 8\nA 2 1\nB 2\nA 2 2\nA 2 2\nB 2\nD 3 2\nD 3 2\nD 3 2\nV 3 0\nV 3 8\n";

const ORDER_ANSWERS: &[u8] =
    b"ok 1\nok\nok 1\nok\nok 2\nok\nok\nok 2\nok\nok 3\nok\nok 3\nno 33 13\nno 33 14\nok\nno 33 16\nok\nok\nok 2\nok 4\nok\nok 4\nok\nno 32 24\nok 5\nok 2\nok 1\nok 0\nok 2\nok 4\n";

#[test]
fn stations_meet(rt: HostRuntime) -> Result<(), Fail> {
    answered(&rt, rt.alloc(), WORKED, WORKED_ANSWERS)
}

#[test]
fn refusals_have_their_numbers_and_lines(rt: HostRuntime) -> Result<(), Fail> {
    answered(&rt, rt.alloc(), REFUSALS, REFUSALS_ANSWERS)
}

#[test]
fn applications_come_in_order(rt: HostRuntime) -> Result<(), Fail> {
    answered(&rt, rt.alloc(), ORDER, ORDER_ANSWERS)
}

#[test]
fn last_line_may_lack_its_end(rt: HostRuntime) -> Result<(), Fail> {
    answered(&rt, rt.alloc(), b"", b"")?;
    answered(&rt, rt.alloc(), b"\n", b"no 7 1\n")?;
    answered(&rt, rt.alloc(), b"B 0\nV 3 127", b"ok 1\nok 0\n")?;
    answered(&rt, rt.alloc(), b"B 0\r\nB", b"no 7 1\nno 7 2\n")
}
