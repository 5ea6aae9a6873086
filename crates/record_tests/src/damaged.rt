// Damaged records, and the item that each is refused with.
use record::{RecordFault, check as check_record};
use std::process::Abort;

fn refused(rt: &impl Abort, bytes: &[u8], item: usize) {
    assert_eq!(rt; check_record(bytes), Err(RecordFault::Malformed { item }));
}

// A record of one item at home 0 with s 0, and one pair.
fn one_pair(object: u8, value: u32) -> [u8; 13] {
    let [a, b, c, d] = value.to_be_bytes();
    [0, 1, 0, 1, 0, 6, 0, 0, object, a, b, c, d]
}

#[test]
fn the_count_or_the_contents(rt: HostRuntime) {
    refused(&rt, b"", 0);
    refused(&rt, b"\x00", 0);
    // 257 items
    refused(&rt, b"\x01\x01", 0);
    // no contents, and one byte short of them
    refused(&rt, b"\x00\x01", 0);
    refused(&rt, b"\x00\x01\x00\x01\x00", 0);
}

#[test]
fn the_head_of_an_item(rt: HostRuntime) {
    // home 8; no pairs; nine pairs
    refused(
        &rt,
        b"\x00\x01\x08\x01\x00\x06\x00\x00\x00\x00\x00\x00\x05",
        1,
    );
    refused(&rt, b"\x00\x01\x00\x00\x00\x06\x00\x00", 1);
    refused(
        &rt,
        b"\x00\x01\x00\x09\x00\x06\x00\x00\x00\x00\x00\x00\x01\x01\x00\x00\x00\x01\x02\x00\x00\x00\x01\x03\x00\x00\x00\x01\x04\x00\x00\x00\x01\x05\x00\x00\x00\x01\x06\x00\x00\x00\x01\x07\x00\x00\x00\x01\x08\x00\x00\x00\x01",
        1,
    );
    // an offset one too low, and one too high
    refused(
        &rt,
        b"\x00\x01\x00\x01\x00\x05\x00\x00\x00\x00\x00\x00\x05",
        1,
    );
    refused(
        &rt,
        b"\x00\x01\x00\x01\x00\x07\x00\x00\x00\x00\x00\x00\x05",
        1,
    );
    // s equal to the item's number; a body cut short; a byte left over
    refused(
        &rt,
        b"\x00\x01\x00\x01\x00\x06\x00\x01\x00\x00\x00\x00\x05",
        1,
    );
    refused(&rt, b"\x00\x01\x00\x01\x00\x06\x00\x00\x00\x00\x00\x00", 1);
    refused(
        &rt,
        b"\x00\x01\x00\x01\x00\x06\x00\x00\x00\x00\x00\x00\x05\x00",
        2,
    );
}

#[test]
fn the_pairs_of_an_item(rt: HostRuntime) {
    // equal and falling objects
    refused(
        &rt,
        b"\x00\x01\x00\x02\x00\x06\x00\x00\x03\x00\x00\x00\x01\x03\x00\x00\x00\x02",
        1,
    );
    refused(
        &rt,
        b"\x00\x01\x00\x02\x00\x06\x00\x00\x03\x00\x00\x00\x01\x02\x00\x00\x00\x02",
        1,
    );
    // objects 128 and 255
    refused(&rt, &one_pair(128, 0), 1);
    refused(&rt, &one_pair(255, 0), 1);
}

// One above the top of each field that has a number above it, in the last ticket.
#[test]
fn values_above_their_tops(rt: HostRuntime) {
    refused(&rt, &one_pair(120, 13), 1);
    refused(&rt, &one_pair(121, 10_000), 1);
    refused(&rt, &one_pair(122, 1_000_001), 1);
    refused(&rt, &one_pair(123, 65), 1);
    refused(&rt, &one_pair(124, 256), 1);
    refused(&rt, &one_pair(125, 32), 1);
    refused(&rt, &one_pair(126, 65_536), 1);
    assert_eq!(rt; check_record(&one_pair(127, 4_294_967_295)), Ok(1));
    assert_eq!(rt; check_record(&one_pair(120, 12)), Ok(1));
}

// The first of two items is fine.
#[test]
fn the_second_item(rt: HostRuntime) {
    refused(
        &rt,
        b"\x00\x02\x00\x01\x00\x0a\x00\x01\x00\x11\x00\x00\x00\x00\x00\x00\x05\x00\x02\x00\x00\x00\x00\x05",
        2,
    );
    refused(
        &rt,
        b"\x00\x02\x00\x01\x00\x0a\x00\x01\x00\x12\x00\x00\x00\x00\x00\x00\x05\x00\x01\x00\x00\x00\x00\x05",
        2,
    );
    refused(
        &rt,
        b"\x00\x02\x00\x01\x00\x0a\x00\x01\x00\x11\x00\x00\x00\x00\x00\x00\x05\x00\x01\x00\x00\x00\x00\x05\x00",
        3,
    );
}
