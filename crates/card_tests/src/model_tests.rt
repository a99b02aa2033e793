// A drive of three heads over a small storage, at device address XFF: what comes out otherwise there.
use crate::said::*;
use crate::turns::*;
use card::surroundings::Surroundings;
use pack::plain_pack::PlainPack;
use runs::run::run;
use std::test::Fail;
use storage::plain::Plain;

static THREE_HEADS: [Turn; 27] = [
    Turn(
        "device ID",
        Ask::Command(0x20FF, 0),
        Said::Accepted(7, 0x00CA),
    ),
    Turn("another device", Ask::Command(0x2003, 0), NOT_ATTACHED),
    Turn("prepare", Ask::Command(0x60FF, 0x0001), OK),
    Turn("ready", Ask::Ready, Said::Done),
    Turn("attention", Ask::Service, Said::Interrupt(4, 0x00FF)),
    Turn("the last word", Ask::Store(0x01FE, 7, 0), Said::Done),
    Turn("past it", Ask::Store(0x0200, 0, 0), NO_WORD),
    Turn("a seek", Ask::Store(0x0100, 7, 0x0005), Said::Done),
    Turn("to head 2", Ask::Store(0x0108, 7, 0x0200), Said::Done),
    Turn("start", Ask::Command(0x70FF, 0x0100), OK),
    Turn("head 2 of three", Ask::Step, Said::Stepped),
    Turn("moved", Ask::Step, Said::Stepped),
    Turn("device end", Ask::Service, Said::Interrupt(3, 0x00FF)),
    Turn("to head 3", Ask::Store(0x0108, 7, 0x0300), Said::Done),
    Turn("start again", Ask::Command(0x70FF, 0x0100), OK),
    Turn("head 3 of three", Ask::Step, ELEVEN),
    Turn("exception", Ask::Service, Said::Interrupt(2, 0x10FF)),
    Turn("a verify", Ask::Store(0x0100, 0, 0x000C), Said::Done),
    Turn("of ID 0", Ask::Store(0x0108, 0, 0), Said::Done),
    Turn("of one byte", Ask::Store(0x010C, 0, 1), Said::Done),
    Turn("start of it", Ask::Command(0x70FF, 0x0100), OK),
    Turn("fetch", Ask::Step, Said::Stepped),
    Turn("verified under head 2", Ask::Step, Said::Stepped),
    Turn("its device end", Ask::Service, Said::Interrupt(3, 0x00FF)),
    Turn("a block past the end", Ask::Command(0x70FF, 0x01F8), OK),
    Turn("its fifth word", Ask::Step, THIRTEEN),
    Turn("its exception", Ask::Service, Said::Interrupt(2, 0x04FF)),
];

const ELEVEN: Said = Said::Ended(11, "specification check", "channel", 0x0100, 0);

const THIRTEEN: Said = Said::Ended(13, "invalid address", "storage", 0x01F8, 0x0200);

#[test]
fn three_heads_and_512_bytes(rt: HostRuntime) -> Result<(), Fail> {
    let Ok(mut pack) = PlainPack::open(vec![in rt.alloc(); 0u8; 14_398_560]?) else {
        return Err(Fail::new("the pack was refused"));
    };
    let Ok(mut storage) = Plain::new(vec![in rt.alloc(); 0u8; 0x0200]?) else {
        return Err(Fail::new("the storage was refused"));
    };
    let mut list = entries(rt.alloc(), &THREE_HEADS)?;
    let mut around = Surroundings {
        device: 0xFF,
        drive: &mut pack,
        storage: &mut storage,
    };
    let card = run(&mut around, list.as_mut_slice());
    assert_eq!(rt; (card.position.cylinder, card.position.head), (0, 2));
    check_answers(&rt, list.as_slice(), &THREE_HEADS);
    Ok(())
}
