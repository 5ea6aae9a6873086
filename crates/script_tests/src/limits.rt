// Scripts that run into the limits, and scripts that are not run.
use crate::ROOM;
use script::Unfit;
use shop_script::{ShopFault, run_shop};
use std::alloc::{AllocError, Global};
use std::fmt::Write;
use std::process::Abort;
use std::test::Fail;

// The answers of a script end with these.
fn ends_with(rt: &impl Abort, heap: Global, script: &str, last: &[u8]) -> Result<(), Fail> {
    let mut buffer = vec![in heap; b'.'; ROOM]?;
    let length = run_shop(heap, script.as_bytes(), &mut buffer)?;
    let from = length.saturating_sub(last.len());
    assert!(rt; buffer.get(from..length) == Some(last));
    Ok(())
}

// Fifty-six transactions stay open, fourteen at each replica; 456 begin at replica 0 and are given up.
fn all_transactions(script: &mut String) -> Result<(), Fail> {
    for i in 0..56u32 {
        let k = i % 4;
        writeln!(script, "B {k}")?;
    }
    for t in 57..513u32 {
        writeln!(script, "B 0\nG {t}")?;
    }
    Ok(())
}

#[test]
fn fifteen_at_home_and_512_in_all(rt: HostRuntime) -> Result<(), Fail> {
    let mut script = String::new(rt.alloc());
    all_transactions(&mut script)?;
    script.push_str("B 3\n")?;
    ends_with(&rt, rt.alloc(), script.as_str(), b"ok 512\nok\nno 28 969\n")?;
    let mut script = String::new(rt.alloc());
    for _ in 0..16u32 {
        script.push_str("B 2\n")?;
    }
    ends_with(&rt, rt.alloc(), script.as_str(), b"ok 15\nno 27 16\n")
}

// Transaction 1 has seen nothing. Behind it 256 write sets, in batches of fifteen that share no object.
fn all_numbers(script: &mut String) -> Result<(), Fail> {
    script.push_str("B 1\nW 1 1 7\n")?;
    for i in 0..256u32 {
        let t = i + 2;
        let object = i % 15 * 8 + 1;
        writeln!(script, "B 0\nW {t} {object} {i}\nC {t}")?;
        if i % 15 == 14 {
            script.push_str("D 0 15\n")?;
        }
    }
    Ok(())
}

// With all numbers given one more is refused and stays open, a clash aborts, and a commit without writes is accepted.
#[test]
fn all_256_numbers(rt: HostRuntime) -> Result<(), Fail> {
    let mut script = String::new(rt.alloc());
    all_numbers(&mut script)?;
    script.push_str(
        "D 0 15\nB 0\nW 258 0 12\nC 258\nR 258 0\nC 1\nB 0\nC 259\nD 1 0\nD 1 1000\nV 1 1\n",
    )?;
    ends_with(
        &rt,
        rt.alloc(),
        script.as_str(),
        b"ok 256\nok 1\nok 258\nok\nno 31 791\nok 12\nabort 1\nok 259\nok read\nok 0\nok 256\nok 255\n",
    )
}

#[test]
fn unfit_scripts_are_not_run(rt: HostRuntime) {
    let heap = rt.alloc();
    let mut buffer = [b'.'; 96];
    let lines = [10u8; 1_025];
    assert_eq!(rt;
        run_shop(heap, &lines, &mut buffer),
        Err(ShopFault::Unfit(Unfit::TooLong))
    );
    let bytes = [b'B'; 16_385];
    assert_eq!(rt;
        run_shop(heap, &bytes, &mut buffer),
        Err(ShopFault::Unfit(Unfit::TooLong))
    );
    let short = Unfit::BufferShort { needed: 128 };
    assert_eq!(rt;
        run_shop(heap, b"B 0\nB 1\nB 2\nB 3", &mut buffer),
        Err(ShopFault::Unfit(short))
    );
    assert_eq!(rt; buffer, [b'.'; 96]);
    assert_eq!(rt; run_shop(heap, b"B 0\nB 1\nB 4", &mut buffer), Ok(17));
}
