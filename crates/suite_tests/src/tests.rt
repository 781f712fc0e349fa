// Examples worked by hand.
use crate::opening::piece_length;
use crate::plain::Plain;
use frame::{Header, HeaderFault};
use octets::{big, fill, little, same};
use stations::{BASE, GROUP, LOGGER};
use std::test::Fail;
use suite::{HeadFault, OpenFault, PieceFault, Suite};

// A logger's second fragment of three, of message 291, protected.
const SECOND: Header = Header {
    to_ds: true,
    from_ds: false,
    more_fragments: true,
    protected: true,
    order: false,
    address1: BASE,
    address2: LOGGER,
    address3: GROUP,
    sequence: 291,
    fragment: 1,
};

// 0x08 for data; to DS, more fragments and protected are 0x01 + 0x04 + 0x40; 291 × 16 + 1 is 0x1231.
const SECOND_OCTETS: [u8; 24] = [
    0x08, 0x45, 0, 0, 0x02, 0x10, 0x20, 0x30, 0x40, 0x50, 0x02, 0, 0, 0, 0, 0x07, 0x03, 0, 0x5e, 0,
    0, 0x01, 0x31, 0x12,
];

#[test]
fn header_by_hand(rt: HostRuntime) {
    assert!(rt; same(&SECOND.octets(), &SECOND_OCTETS));
}

#[test]
fn header_is_read(rt: HostRuntime) -> Result<(), Fail> {
    let mut frame = SECOND_OCTETS;
    // the flags and the duration that say nothing
    frame[1] = 0x7d;
    frame[2] = 0xff;
    let header = Header::read(&frame)?;
    assert!(rt;
        header.to_ds
            && !header.from_ds
            && header.more_fragments
            && header.protected
            && !header.order
    );
    assert_eq!(rt; header.address1.number(), 0x0210_2030_4050);
    assert_eq!(rt; header.address2.number(), 7 + 0x0200_0000_0000);
    assert!(rt; header.address3.is_group() && !header.address1.is_group());
    assert_eq!(rt; header.sequence, 291);
    assert_eq!(rt; header.fragment, 1);
    assert_eq!(rt; Header::read(&frame[0..23]), Err(HeaderFault::Short));
    frame[0] = 0x88;
    assert_eq!(rt; Header::read(&frame), Err(HeaderFault::NotData));
    Ok(())
}

#[test]
fn numbers_in_octets(rt: HostRuntime) {
    let mut memory = [0xee; 8];
    little::put_number::<6>(&mut memory, 1, 0x0102_0304_0506);
    assert_eq!(rt; memory, [0xee, 6, 5, 4, 3, 2, 1, 0xee]);
    assert_eq!(rt; little::number_at::<6>(&memory, 1), 0x0102_0304_0506);
    assert_eq!(rt; big::number_at::<2>(&memory, 5), 0x0201);
    big::put_number::<4>(&mut memory, 0, 0xa1a2_a3a4);
    assert_eq!(rt; memory, [0xa1, 0xa2, 0xa3, 0xa4, 3, 2, 1, 0xee]);
    assert_eq!(rt; little::number_at::<4>(&memory, 0), 0xa4a3_a2a1);
}

const KEY: [u8; 4] = [9, 8, 7, 6];

#[test]
fn plain_body_by_hand(rt: HostRuntime) {
    let mut body = [0xee; 8];
    Plain.seal(&KEY, &SECOND_OCTETS, 2, 77, b"abc", &mut body);
    assert_eq!(rt; body, [77, 2, b'a', b'b', b'c', 9, 0xee, 0xee]);
    assert_eq!(rt; Plain.head(&body[0..6]), Ok((77, 2)));
}

#[test]
fn faults_pass_up_and_memory_is_wiped(rt: HostRuntime) {
    let body = [77, 2, b'a', b'b', b'c', 9];
    let mut working = [0xee; 10];
    assert_eq!(rt;
        piece_length(&Plain, &KEY, &SECOND_OCTETS, &body, &mut working),
        Ok(3)
    );
    assert_eq!(rt; working, [0; 10]);
    fill(&mut working, 0xee);
    assert_eq!(rt;
        piece_length(&Plain, &KEY, &SECOND_OCTETS, &body[0..5], &mut working),
        Err(PieceFault::Open(OpenFault::Unequal))
    );
    assert_eq!(rt; working, [0; 10]);
    fill(&mut working, 0xee);
    assert_eq!(rt;
        piece_length(&Plain, &KEY, &SECOND_OCTETS, &body[0..3], &mut working),
        Err(PieceFault::Head(HeadFault::Short))
    );
    assert_eq!(rt; working, [0; 10]);
}
