// A pile of two lock-outs over a table.

use crate::{ArcTable, Row};
use costs::Plain;
use networks::{Bounds, Lockout, Network, Stop, try_out};
use std::test::Fail;

#[test]
fn pile_of_lockouts(rt: HostRuntime) -> Result<(), Fail> {
    let mut rows = [Row::new(1, 2, 0, 5, Plain { units: 3 }); 2];
    let mut pile = Lockout::new(Lockout::new(ArcTable::new(2, 2, &mut rows)));
    assert_eq!(rt; pile.lockouts(), 2);
    assert_eq!(rt; try_out(&mut pile, 1, 2), Ok(()));
    assert_eq!(rt; try_out(&mut pile, 2, 2), Ok(()));
    assert_eq!(rt; try_out(&mut pile, 3, 2), Err(Stop::Absent(2)));
    assert_eq!(rt; try_out(&mut pile, 1, 3), Err(Stop::Absent(3)));
    let b = Bounds::new(1, 4)?;
    assert_eq!(rt; pile.rebound(2, b), Ok(()));
    let seen = pile.arc(2).ok_or("no arc")?;
    assert_eq!(rt; seen.hi, 4);
    Ok(())
}
