// Tags of two plans in one ring: a tag names its arc alone.

use makes::ArcTable;
use networks::{Lockout, Stop, TagRing};
use std::test::Fail;
use tests_kit::{ROOM, close, triangle};

// The tag of one plan is refused by another where the arc is not out there, and accepted where it is.
#[test]
fn of_another_plan(rt: HostRuntime) -> Result<(), Fail> {
    let mut rows = triangle();
    let mut others = triangle();
    let mut one = Lockout::new(ArcTable::new(3, 4, &mut rows));
    let mut two = Lockout::new(ArcTable::new(3, 4, &mut others));
    let mut tags = TagRing::<ROOM>::new();
    assert_eq!(rt; tags.take_out(&mut one, 1, 3), Some(Ok(())));
    assert_eq!(rt; tags.hand_back(&mut two, 1, 3), Some(Err(Stop::NotOut(3))));
    assert_eq!(rt; tags.take_out(&mut two, 1, 3), Some(Ok(())));
    assert_eq!(rt; tags.hand_back(&mut two, 1, 3), Some(Ok(())));
    assert_eq!(rt; tags.hand_back(&mut one, 1, 3), Some(Ok(())));
    close(tags)
}
