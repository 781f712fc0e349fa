// Make, install and remove.
use crate::ends_at_hand::{CCMP_KEY, numbered};
use ccmp::Ccmp;
use ends::{Place, Role};
use link::LinkEnd;
use stations::{BASE, GROUP, LOGGER, TKIP_KEY};
use std::test::Fail;
use suite::Suite;
use tkip::Tkip;

const TOP: u64 = Tkip::TOP_COUNTER;

#[test]
fn make_refuses_a_group_address(rt: HostRuntime) {
    let mut end = LinkEnd::blank(Tkip, Ccmp);
    assert_eq!(rt; numbered(end.make(Role::Base, &GROUP)), Err(3));
    assert_eq!(rt; numbered(end.make(Role::Base, &BASE)), Ok(()));
}

#[test]
fn each_ground_of_install(rt: HostRuntime) -> Result<(), Fail> {
    let mut end = LinkEnd::blank(Tkip, Ccmp);
    end.make(Role::Logger, &LOGGER)?;
    let place = Place::Pairwise(15);
    assert_eq!(rt;
        numbered(end.install(place, &TKIP_KEY, &BASE, 0, (1 << 62) + 1)),
        Err(1)
    );
    assert_eq!(rt;
        numbered(end.install(Place::Pairwise(16), &TKIP_KEY, &BASE, 0, 0)),
        Err(2)
    );
    assert_eq!(rt;
        numbered(end.install(Place::Group(0), &TKIP_KEY, &BASE, 0, 0)),
        Err(2)
    );
    assert_eq!(rt;
        numbered(end.install(place, &TKIP_KEY, &GROUP, 0, 0)),
        Err(3)
    );
    assert_eq!(rt;
        numbered(end.install(place, &TKIP_KEY, &LOGGER, 0, 0)),
        Err(3)
    );
    assert_eq!(rt;
        numbered(end.install(place, &TKIP_KEY[..31], &BASE, 0, 0)),
        Err(4)
    );
    assert_eq!(rt;
        numbered(end.install(place, &TKIP_KEY, &BASE, TOP + 1, 0)),
        Err(5)
    );
    assert_eq!(rt;
        numbered(end.install(place, &TKIP_KEY, &BASE, TOP, 1 << 62)),
        Ok(())
    );
    assert_eq!(rt;
        numbered(end.install(place, &TKIP_KEY, &BASE, 0, 0)),
        Err(7)
    );
    assert_eq!(rt;
        numbered(end.install(Place::Pairwise(0), &TKIP_KEY, &BASE, 0, 0)),
        Err(7)
    );
    Ok(())
}

// The group suite has another key length; a base's groups stand under its own address, a logger's under any.
#[test]
fn groups_under_an_address(rt: HostRuntime) -> Result<(), Fail> {
    let mut base = LinkEnd::blank(Tkip, Ccmp);
    base.make(Role::Base, &BASE)?;
    assert_eq!(rt;
        numbered(base.install(Place::Group(3), &CCMP_KEY, &LOGGER, 0, 0)),
        Err(3)
    );
    assert_eq!(rt;
        numbered(base.install(Place::Group(3), &TKIP_KEY, &BASE, 0, 0)),
        Err(4)
    );
    assert_eq!(rt;
        numbered(base.install(Place::Group(3), &CCMP_KEY, &BASE, 0, 0)),
        Ok(())
    );
    assert_eq!(rt;
        numbered(base.install(Place::Group(4), &CCMP_KEY, &BASE, 0, 0)),
        Err(2)
    );
    let mut logger = LinkEnd::blank(Tkip, Ccmp);
    logger.make(Role::Logger, &LOGGER)?;
    assert_eq!(rt;
        numbered(logger.install(Place::Group(1), &CCMP_KEY, &LOGGER, 0, 0)),
        Ok(())
    );
    Ok(())
}

#[test]
fn a_removed_place_is_empty(rt: HostRuntime) -> Result<(), Fail> {
    let mut end = LinkEnd::blank(Ccmp, Ccmp);
    end.make(Role::Logger, &LOGGER)?;
    let place = Place::Pairwise(3);
    assert_eq!(rt; numbered(end.remove(Place::Pairwise(16))), Err(2));
    assert_eq!(rt; numbered(end.remove(place)), Err(8));
    end.install(place, &CCMP_KEY, &BASE, 0, 0)?;
    assert_eq!(rt; numbered(end.remove(place)), Ok(()));
    assert_eq!(rt; numbered(end.remove(place)), Err(8));
    assert_eq!(rt;
        numbered(end.install(place, &CCMP_KEY, &BASE, 0, 0)),
        Ok(())
    );
    Ok(())
}
