//! Drills by their words. What they print was made by two models in another language, which do the
//! writes one after another.

use crate::tests::{assert_same, assert_usage, ran};
use ldap_ber::Octets;
use std::test::Fail;
use sync_io::{FaultySink, MemorySink, MemorySource};

/// Of one writer, one consumer and one operation with the seed 0. By hand, the number that is drawn
/// is 1442695040888963407, so that entry 5 is added, with 0 as the number of its department.
const ONE_OF_EACH: &[u8] = b"\
writes 3 entries 3 sha256 034ff80d9ba299d64daf89d9c2268e7ff95ea68b74165212137bb9e9e7c7f427
consumer 0 entries 1 sha256 64cb4d9b06d2b8602738032185b0bd5f3f093ba0f1bf67c2fe916e8aadd49a61
";

/// Of one writer, eight consumers and three operations with the greatest seed.
const GREATEST_SEED: &[u8] = b"\
writes 5 entries 5 sha256 52f5487f2cc6702df4b13c719711fce1dcad858d74706e21add5beb8277a40da
consumer 0 entries 1 sha256 160ea0136878c3da5705afa917a312db6ad0d6628a5d9fa31d4af229e758ed20
consumer 1 entries 0 sha256 e3b0c44298fc1c149afbf4c8996fb92427ae41e4649b934ca495991b7852b855
consumer 2 entries 1 sha256 227610fc7a280b89f048b2b74a3052225648d174e4e5d219b1e984c12ebbafb3
consumer 3 entries 1 sha256 3ea34fc4f14fa97866e99b5a6f2283d54e89bc9142f3bf42e61acfd43597563a
consumer 4 entries 1 sha256 160ea0136878c3da5705afa917a312db6ad0d6628a5d9fa31d4af229e758ed20
consumer 5 entries 0 sha256 e3b0c44298fc1c149afbf4c8996fb92427ae41e4649b934ca495991b7852b855
consumer 6 entries 1 sha256 227610fc7a280b89f048b2b74a3052225648d174e4e5d219b1e984c12ebbafb3
consumer 7 entries 1 sha256 3ea34fc4f14fa97866e99b5a6f2283d54e89bc9142f3bf42e61acfd43597563a
";

/// Of four writers, three consumers and 2,000 operations of each writer with the seed 7.
const FOUR_WRITERS: &[u8] = b"\
writes 8005 entries 211 sha256 0844a4e1eefa8c9b4e5895911879e13495f94807e52c540f1a22e80cafc0014e
consumer 0 entries 65 sha256 548fbd49a222b2df3a951f894e0102094e69d066e99d49b1fd9263e2d4b338c0
consumer 1 entries 46 sha256 1660ab0e9c022fd7a1adb07fac82f9aa24c82504adae2164fabb5feb6a431518
consumer 2 entries 53 sha256 c7f179ff68a0aa355f6b824e1e3906925fc5431427a607ac8e33eb152d2e479c
";

/// The words of drills, and what they print. The last one prints the same each time.
const DRILLS: [(&[&str], &[u8]); 4] = [
    (&["drill", "0", "1", "1", "1"], ONE_OF_EACH),
    (
        &["drill", "18446744073709551615", "1", "8", "3"],
        GREATEST_SEED,
    ),
    (&["drill", "7", "4", "3", "2000"], FOUR_WRITERS),
    (&["drill", "7", "4", "3", "2000"], FOUR_WRITERS),
];

#[test]
fn a_drill_prints_what_its_plan_leaves(rt: HostRuntime) -> Result<(), Fail> {
    let alloc = rt.alloc();
    for (words, printed) in &DRILLS {
        let mut input = MemorySource::new(Octets::from(Vec::new(alloc)));
        let mut output = MemorySink::new(alloc);
        let (code, errors) = ran(&rt, alloc, words, &mut input, &mut output)?;
        assert_same(&rt, "errors", &errors.bytes(), &b"".as_slice());
        assert_same(&rt, "output", &output.bytes(), printed);
        assert_same(&rt, "status", &code, &0);
    }
    Ok(())
}

/// Words of no drill.
const NO_DRILLS: [&[&str]; 14] = [
    &["drill", "0", "9", "1", "1"],
    &["drill", "0", "0", "1", "1"],
    &["drill", "0", "1", "9", "1"],
    &["drill", "0", "1", "0", "1"],
    &["drill", "0", "1", "1", "2001"],
    &["drill", "0", "1", "1", "0"],
    &["drill", "18446744073709551616", "1", "1", "1"],
    &["drill", "00", "1", "1", "1"],
    &["drill", "+1", "1", "1", "1"],
    &["drill", "-1", "1", "1", "1"],
    &["drill", "", "1", "1", "1"],
    &["Drill", "0", "1", "1", "1"],
    &["drill", "0", "1", "1"],
    &["drill", "0", "1", "1", "1", "1"],
];

#[test]
fn other_words_are_no_drill(rt: HostRuntime) -> Result<(), Fail> {
    for words in &NO_DRILLS {
        assert_usage(&rt, rt.alloc(), words)?;
    }
    Ok(())
}

/// Which call of the output fails, and what is printed then. The second one is the flush.
const FAILURES: [(u64, &[u8]); 2] = [(1, b""), (2, ONE_OF_EACH)];

#[test]
fn an_output_that_fails_is_reported(rt: HostRuntime) -> Result<(), Fail> {
    let alloc = rt.alloc();
    for (call, printed) in &FAILURES {
        let mut input = MemorySource::new(Octets::from(Vec::new(alloc)));
        let failing = Vec::from_slice(alloc, &[*call])?;
        let mut output = FaultySink::new(alloc, failing);
        let words = ["drill", "0", "1", "1", "1"];
        let (code, errors) = ran(&rt, alloc, &words, &mut input, &mut output)?;
        let said = b"syncrepl: write fault\n".as_slice();
        assert_same(&rt, "errors", &errors.bytes(), &said);
        assert_same(&rt, "output", &output.bytes(), printed);
        assert_same(&rt, "status", &code, &5);
    }
    Ok(())
}
