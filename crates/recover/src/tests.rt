// What is refused before anything is read or written.
use crate::refusal::Refusal;
use crate::request::read_request;
use crate::shards::read_shards;
use std::test::Fail;

// The number of the refusal; none where the command line is taken up.
fn refused(option: &str, value: &str, len: &str) -> Option<u8> {
    let refusal = read_request(&["recover", option, value, len, "shards", "block.out"]).err()?;
    Some(refusal.number())
}

// An option, its value and a length, and what comes of them.
const CASES: [(&str, &str, &str, Option<u8>); 12] = [
    ("--policy", "RS-3-2-1024k", "1000", None),
    ("--policy", "RS-3-2-1024K", "1000", Some(1)),
    ("--id", "5", "1000", None),
    ("--id", "6", "1000", Some(1)),
    ("--schema", "rs,6,3,64", "1000", None),
    ("--schema", "rs,9,8,64", "1000", Some(2)),
    ("--schema", "xor,2,2,64", "1000", Some(2)),
    ("--schema", "rs,6,3,0", "1000", Some(2)),
    ("--schema", "lrc,6,3,64", "1000", Some(1)),
    ("--schema", "rs,6,3", "1000", Some(40)),
    ("--schema", "rs,6,3,64", "-1", Some(40)),
    ("--scheme", "rs,6,3,64", "1000", Some(40)),
];

#[test]
fn requests(rt: HostRuntime) -> Result<(), Fail> {
    for (option, value, len, number) in CASES {
        assert_eq!(rt; refused(option, value, len), number);
    }
    Ok(())
}

#[test]
fn folder_that_is_not_there(rt: HostRuntime) -> Result<(), Fail> {
    let words = [
        "recover",
        "--schema",
        "rs,6,3,64",
        "1000",
        "no-such-folder",
        "block.out",
    ];
    let shards = read_shards(&rt, &read_request(&words)?);
    assert!(rt; matches!(shards, Err(Refusal::File(_))));
    Ok(())
}
