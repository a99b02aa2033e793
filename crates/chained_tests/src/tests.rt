// A small chained pack: damaged, it is refused by the number that the format gives; whole, it is a drive.
use basics::refusal::Refusal;
use chained_pack::chained::ChainedPack;
use drive::drive::Drive;
use drive::geometry::Track;
use drive::sector::Condition;
use std::alloc::{AllocError, Global};
use std::test::Fail;

// The length of the pack: a header of 136 bytes and four records of 268, at 136, 404, 672 and 940.
const WHOLE: usize = 1208;

// What stands in the pack besides zeros, byte by byte.
const BYTES: [(usize, u8); 16] = [
    // the text, two heads, three records in use
    (0, 0x34),
    (1, 0x39),
    (2, 0x36),
    (3, 0x32),
    (4, 2),
    (7, 3),
    // chain 0 begins with record 3, chain 5 with record 1
    (9, 3),
    (19, 1),
    // record 1: record 2 is next, track 5, place 7, the data spoiled
    (137, 2),
    (139, 5),
    (140, 7),
    (142, 1),
    // record 2 is the last of its chain: track 69, place 7; record 3 has track 0, place 0
    (407, 69),
    (408, 7),
    // record 4 is not in use, and its track and place are none
    (942, 255),
    (944, 255),
];

// a byte that stays as it is
const KEPT: (usize, u8) = (WHOLE - 1, 0);

// What is damaged, the length that is left, two bytes that are changed, and the number; 0 where the pack opens.
const CASES: [(&'static str, usize, (usize, u8), (usize, u8), u8); 49] = [
    ("nothing", WHOLE, KEPT, KEPT, 0),
    (
        "the record that is not in use",
        WHOLE,
        (940, 9),
        (945, 7),
        0,
    ),
    ("an ID's bytes", WHOLE, (143, 255), (147, 255), 0),
    ("three heads", WHOLE, (4, 3), KEPT, 0),
    ("no bytes", 0, KEPT, KEPT, 21),
    ("a short header", 135, KEPT, KEPT, 21),
    ("one byte too few", 1207, KEPT, KEPT, 21),
    ("a record too few", 672, KEPT, KEPT, 21),
    ("more in use than there are", WHOLE, (7, 5), KEPT, 21),
    ("the count's high byte", WHOLE, (6, 1), KEPT, 21),
    ("the text's first byte", WHOLE, (0, 0x35), KEPT, 22),
    ("the text's last byte", WHOLE, (3, 0x33), KEPT, 22),
    ("one head", WHOLE, (4, 1), KEPT, 22),
    ("four heads", WHOLE, (4, 4), KEPT, 22),
    ("the zero", WHOLE, (5, 1), KEPT, 22),
    ("track 768 of 606", WHOLE, (674, 3), KEPT, 24),
    ("track 606 of 606", WHOLE, (674, 2), (675, 0x5e), 24),
    (
        "track 605 is on another chain",
        WHOLE,
        (674, 2),
        (675, 0x5d),
        25,
    ),
    ("place 60", WHOLE, (140, 60), KEPT, 24),
    ("place 59", WHOLE, (140, 59), KEPT, 0),
    ("an ID condition", WHOLE, (141, 2), KEPT, 24),
    ("a data condition", WHOLE, (410, 2), KEPT, 24),
    ("both conditions spoiled", WHOLE, (409, 1), (410, 1), 0),
    ("a first index not in use", WHOLE, (9, 4), KEPT, 25),
    ("a first index past all", WHOLE, (134, 1), KEPT, 25),
    ("a next index not in use", WHOLE, (673, 4), KEPT, 25),
    ("a next index past all", WHOLE, (404, 1), KEPT, 25),
    ("a loop of two", WHOLE, (405, 1), KEPT, 25),
    ("a loop of one", WHOLE, (673, 3), KEPT, 25),
    ("a record on a second chain", WHOLE, (11, 1), KEPT, 25),
    ("a chain that runs into another", WHOLE, (673, 2), KEPT, 25),
    ("the last record left over", WHOLE, (9, 0), KEPT, 25),
    ("a chain cut short", WHOLE, (137, 0), KEPT, 25),
    ("one place twice", WHOLE, (407, 5), KEPT, 26),
    ("one track on two places", WHOLE, (407, 5), (408, 8), 0),
    ("21 and 22", WHOLE, (7, 5), (0, 0), 21),
    ("21 and 24", 1207, (140, 60), KEPT, 21),
    ("21 and 25", 1207, (9, 0), KEPT, 21),
    ("21 and 26", 1207, (407, 5), KEPT, 21),
    ("22 and 24", WHOLE, (5, 1), (140, 60), 22),
    ("22 and 25", WHOLE, (5, 1), (9, 0), 22),
    ("22 and 26", WHOLE, (5, 1), (407, 5), 22),
    (
        "24 in the last, 25 in the first",
        WHOLE,
        (676, 60),
        (137, 1),
        24,
    ),
    (
        "24 in the first, 25 in the last",
        WHOLE,
        (141, 2),
        (673, 3),
        24,
    ),
    (
        "24 in the last, 26 before it",
        WHOLE,
        (677, 2),
        (407, 5),
        24,
    ),
    ("24 where 26 is", WHOLE, (410, 2), (407, 5), 24),
    (
        "25 in the last, 26 before it",
        WHOLE,
        (673, 3),
        (407, 5),
        25,
    ),
    ("25 before 26, one left over", WHOLE, (9, 0), (407, 5), 25),
    ("25 where 26 is", WHOLE, (405, 1), (407, 5), 25),
];

fn set(bytes: &mut [u8], at: usize, value: u8) {
    if at < bytes.len() {
        bytes[at] = value;
    }
}

// the pack with two bytes changed, cut to a length
fn image(
    heap: Global,
    length: usize,
    first: (usize, u8),
    second: (usize, u8),
) -> Result<Vec<u8>, AllocError> {
    let mut bytes = vec![in heap; 0u8; WHOLE]?;
    for (at, value) in BYTES.iter() {
        set(bytes.as_mut_slice(), *at, *value);
    }
    set(bytes.as_mut_slice(), first.0, first.1);
    set(bytes.as_mut_slice(), second.0, second.1);
    bytes.truncate(length);
    Ok(bytes)
}

// the number by which bytes are refused, or 0
fn number(bytes: Vec<u8>) -> u8 {
    match ChainedPack::open(bytes) {
        Ok(_) => 0,
        Err(back) => back.refusal.number(),
    }
}

#[test]
fn damages(rt: HostRuntime) -> Result<(), Fail> {
    for (damage, length, first, second, expected) in CASES.iter() {
        let bytes = image(rt.alloc(), *length, *first, *second)?;
        assert_eq!(rt; number(bytes), *expected, "{}", *damage);
    }
    Ok(())
}

#[test]
fn room(rt: HostRuntime) -> Result<(), Fail> {
    let most = vec![in rt.alloc(); 0u8; 136 + 268 * 65_535]?;
    assert_eq!(rt; number(most), 22);
    let over = vec![in rt.alloc(); 0u8; 136 + 268 * 65_536]?;
    assert_eq!(rt; number(over), 21);
    Ok(())
}

#[test]
fn reads_and_writes(rt: HostRuntime) -> Result<(), Fail> {
    let bytes = image(rt.alloc(), WHOLE, KEPT, KEPT)?;
    let Ok(mut pack) = ChainedPack::open(bytes) else {
        return Err(Fail::new("refused"));
    };
    let track = Track {
        cylinder: 2,
        head: 1,
    };
    assert_eq!(rt; pack.data_condition(track, 7), Condition::Spoiled);
    assert_eq!(rt; pack.write(track, 8, &[7; 256]), Err(Refusal::NoSuchPlace));
    assert_eq!(rt; pack.write(track, 7, &[7; 256]), Ok(()));
    assert_eq!(rt; pack.data_condition(track, 7), Condition::Good);
    let Ok(data) = pack.read(track, 7) else {
        return Err(Fail::new("no data"));
    };
    assert!(rt; data == [7u8; 256].as_slice());
    Ok(())
}
