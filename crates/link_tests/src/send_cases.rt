// Sends that just fit, and sends that are one too many.
use crate::ends_at_hand::{CCMP_KEY, PAIRWISE, logger, numbered, request};
use ccmp::Ccmp;
use ends::{Place, Refusal, Request, Role, Span};
use frame::Header;
use link::LinkEnd;
use stations::{BASE, GROUP, LOGGER, TKIP_KEY};
use std::test::Fail;
use suite::Suite;
use suite_tests::plain::Plain;
use tkip::Tkip;

// Sends the first octets of a message of zeros into memories that are long enough.
fn send_zeros<P: Suite, G: Suite>(
    end: &mut LinkEnd<P, G>,
    size: usize,
    piece_length: usize,
    time: u64,
) -> Result<usize, Refusal> {
    let message = [0u8; 2305];
    let mut frames = [0u8; 4096];
    let mut index = [Span::NOWHERE; 16];
    let mut working = [0u8; 2560];
    end.send(
        &request(piece_length, time),
        &message[0..size.min(2305)],
        &mut frames,
        &mut index,
        &mut working,
    )
}

#[test]
fn messages_of_1_to_2304(rt: HostRuntime) -> Result<(), Fail> {
    let mut end = logger(Tkip, Tkip, &TKIP_KEY)?;
    assert_eq!(rt; numbered(send_zeros(&mut end, 0, 2312, 0)), Err(9));
    assert_eq!(rt; numbered(send_zeros(&mut end, 1, 2312, 0)), Ok(1));
    assert_eq!(rt; numbered(send_zeros(&mut end, 2304, 2312, 0)), Ok(1));
    assert_eq!(rt; numbered(send_zeros(&mut end, 2304, 2310, 0)), Ok(2));
    assert_eq!(rt; numbered(send_zeros(&mut end, 2305, 2312, 0)), Err(9));
    Ok(())
}

#[test]
fn sixteen_pieces_and_seventeen(rt: HostRuntime) -> Result<(), Fail> {
    let mut end = logger(Tkip, Tkip, &TKIP_KEY)?;
    assert_eq!(rt; numbered(send_zeros(&mut end, 1016, 64, 0)), Ok(16));
    assert_eq!(rt; numbered(send_zeros(&mut end, 1017, 64, 0)), Err(10));
    assert_eq!(rt; numbered(send_zeros(&mut end, 100, 62, 0)), Err(10));
    assert_eq!(rt; numbered(send_zeros(&mut end, 100, 65, 0)), Err(10));
    assert_eq!(rt; numbered(send_zeros(&mut end, 100, 2314, 0)), Err(10));
    // without a code, 1,024 octets make sixteen pieces
    let mut newer = logger(Ccmp, Tkip, &CCMP_KEY)?;
    assert_eq!(rt; numbered(send_zeros(&mut newer, 1024, 64, 0)), Ok(16));
    assert_eq!(rt; numbered(send_zeros(&mut newer, 1025, 64, 0)), Err(10));
    Ok(())
}

#[test]
fn the_clock_up_to_2_62(rt: HostRuntime) -> Result<(), Fail> {
    let mut end = logger(Tkip, Ccmp, &TKIP_KEY)?;
    assert_eq!(rt; numbered(send_zeros(&mut end, 1, 64, 1 << 62)), Ok(1));
    assert_eq!(rt;
        numbered(send_zeros(&mut end, 1, 64, (1 << 62) + 1)),
        Err(1)
    );
    Ok(())
}

// The suite for tests has the counters 1 to 255: fifteen sends of sixteen pieces leave fifteen.
#[test]
fn counters_left_exactly_enough(rt: HostRuntime) -> Result<(), Fail> {
    let mut end = logger(Plain, Plain, &TKIP_KEY[..4])?;
    for _ in 0..15 {
        assert_eq!(rt; numbered(send_zeros(&mut end, 1023, 64, 0)), Ok(16));
    }
    assert_eq!(rt; numbered(send_zeros(&mut end, 1023, 64, 0)), Err(11));
    assert_eq!(rt; numbered(send_zeros(&mut end, 959, 64, 0)), Ok(15));
    assert_eq!(rt; numbered(send_zeros(&mut end, 1, 64, 0)), Err(11));
    Ok(())
}

// 100 octets under TKIP at 64 take frames of 100 and 80: sent into these memories.
fn send_hundred(
    frames: &mut [u8],
    index: &mut [Span],
    working: &mut [u8],
) -> Result<usize, Refusal> {
    let mut end = logger(Tkip, Tkip, &TKIP_KEY)?;
    end.send(&request(64, 0), &[7; 100], frames, index, working)
}

#[test]
fn memories_that_just_fit(rt: HostRuntime) -> Result<(), Fail> {
    assert_eq!(rt;
        numbered(send_hundred(&mut [0; 180], &mut [Span::NOWHERE; 2], &mut [0; 2560])),
        Ok(2)
    );
    assert_eq!(rt;
        numbered(send_hundred(&mut [0; 179], &mut [Span::NOWHERE; 2], &mut [0; 2560])),
        Err(12)
    );
    assert_eq!(rt;
        numbered(send_hundred(&mut [0; 180], &mut [Span::NOWHERE; 1], &mut [0; 2560])),
        Err(12)
    );
    assert_eq!(rt;
        numbered(send_hundred(&mut [0; 180], &mut [Span::NOWHERE; 2], &mut [0; 2559])),
        Err(12)
    );
    Ok(())
}

#[test]
fn a_refused_send_wipes_working_memory_only(rt: HostRuntime) -> Result<(), Fail> {
    let mut frames = [0xee; 179];
    let mut index = [Span::NOWHERE; 2];
    let mut working = [0xee; 2560];
    assert_eq!(rt;
        numbered(send_hundred(&mut frames, &mut index, &mut working)),
        Err(12)
    );
    assert_eq!(rt; frames, [0xee; 179]);
    assert_eq!(rt; working, [0; 2560]);
    Ok(())
}

#[test]
fn the_rest_of_the_memories_stays(rt: HostRuntime) -> Result<(), Fail> {
    let mut end = logger(Ccmp, Ccmp, &CCMP_KEY)?;
    let mut frames = [0xee; 200];
    let mut index = [Span::NOWHERE; 3];
    let mut working = [0xee; 2600];
    assert_eq!(rt;
        numbered(end.send(
            &request(64, 0),
            &[7; 100],
            &mut frames,
            &mut index,
            &mut working,
        )),
        Ok(2)
    );
    assert_eq!(rt; &frames[180..], [0xee; 20].as_slice());
    assert_eq!(rt; working, [0; 2600]);
    assert_eq!(rt;
        index[0],
        Span {
            offset: 0,
            length: 104,
        }
    );
    assert_eq!(rt;
        index[1],
        Span {
            offset: 104,
            length: 76,
        }
    );
    assert_eq!(rt; index[2], Span::NOWHERE);
    Ok(())
}

// What is in the frames: two messages, the counters going on and the sequence number one higher.
#[test]
fn frames_in_the_air(rt: HostRuntime) -> Result<(), Fail> {
    let mut end = logger(Tkip, Tkip, &TKIP_KEY)?;
    let mut frames = [0u8; 180];
    let mut index = [Span::NOWHERE; 2];
    let mut working = [0u8; 2560];
    let q = request(64, 0);
    end.send(&q, &[7; 100], &mut frames, &mut index, &mut working)?;
    end.send(&q, &[8; 100], &mut frames, &mut index, &mut working)?;
    let first = Header::read(&frames[0..100])?;
    assert!(rt; first.to_ds && !first.from_ds && first.more_fragments && first.protected);
    assert_eq!(rt; first.address1, BASE);
    assert_eq!(rt; first.address2, LOGGER);
    assert_eq!(rt; first.address3, BASE);
    let second = Header::read(&frames[100..180])?;
    assert!(rt; !second.more_fragments);
    assert_eq!(rt; (first.sequence, first.fragment), (1, 0));
    assert_eq!(rt; (second.sequence, second.fragment), (1, 1));
    assert_eq!(rt; Tkip.head(&frames[124..180]), Ok((4, 0)));
    let mut piece = [0u8; 44];
    assert_eq!(rt;
        Tkip.open(&TKIP_KEY, &frames[100..124], &frames[124..180], &mut piece),
        Ok(44)
    );
    assert_eq!(rt; &piece[0..36], [8; 36].as_slice());
    Ok(())
}

#[test]
fn where_a_base_sends(rt: HostRuntime) -> Result<(), Fail> {
    let mut base = LinkEnd::blank(Tkip, Ccmp);
    base.make(Role::Base, &BASE)?;
    base.install(PAIRWISE, &TKIP_KEY, &LOGGER, 0, 0)?;
    base.install(Place::Group(2), &CCMP_KEY, &BASE, 0, 0)?;
    let mut frames = [0u8; 100];
    let mut index = [Span::NOWHERE; 1];
    let mut working = [0u8; 2560];
    let mut q = Request {
        place: Place::Group(2),
        destination: GROUP,
        source: BASE,
        piece_length: 64,
        time: 0,
    };
    assert_eq!(rt;
        numbered(base.send(&q, &[7; 10], &mut frames, &mut index, &mut working)),
        Ok(1)
    );
    let header = Header::read(&frames)?;
    assert!(rt; header.from_ds && !header.to_ds && !header.more_fragments);
    assert_eq!(rt; header.address1, GROUP);
    assert_eq!(rt; header.address3, BASE);
    assert_eq!(rt; Ccmp.head(&frames[24..58]), Ok((1, 2)));
    q.destination = LOGGER;
    assert_eq!(rt;
        numbered(base.send(&q, &[7; 10], &mut frames, &mut index, &mut working)),
        Err(3)
    );
    // pairwise the destination is not read: it is the place's far end
    q.place = PAIRWISE;
    q.destination = GROUP;
    assert_eq!(rt;
        numbered(base.send(&q, &[7; 10], &mut frames, &mut index, &mut working)),
        Ok(1)
    );
    let header = Header::read(&frames)?;
    assert_eq!(rt; header.address1, LOGGER);
    q.source = GROUP;
    assert_eq!(rt;
        numbered(base.send(&q, &[7; 10], &mut frames, &mut index, &mut working)),
        Err(3)
    );
    Ok(())
}

#[test]
fn where_a_logger_cannot_send(rt: HostRuntime) -> Result<(), Fail> {
    let mut end = logger(Ccmp, Tkip, &CCMP_KEY)?;
    end.install(Place::Group(1), &TKIP_KEY, &BASE, 0, 0)?;
    let mut frames = [0u8; 100];
    let mut index = [Span::NOWHERE; 1];
    let mut working = [0u8; 2560];
    let mut q = request(64, 0);
    q.place = Place::Group(1);
    assert_eq!(rt;
        numbered(end.send(&q, &[7; 10], &mut frames, &mut index, &mut working)),
        Err(2)
    );
    q.place = Place::Pairwise(1);
    assert_eq!(rt;
        numbered(end.send(&q, &[7; 10], &mut frames, &mut index, &mut working)),
        Err(8)
    );
    Ok(())
}
