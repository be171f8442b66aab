// Passing plans over the triangle: what is shown, and each stop that is pass's own.

use costs::Plain;
use makes::ArcTable;
use networks::{Network, Stop};
use plans::pass;
use std::test::Fail;
use tests_kit::{ZERO, triangle};

fn units(units: i64) -> Plain {
    Plain { units }
}

// The order of one arc of a plan without needs that passes.
fn order<N: Network>(net: &N, flow: &[i32], prices: &[N::Cost], arc: usize) -> Result<i32, Stop> {
    pass(net, flow, &[0; 3], prices, &[0; 3])?.order(arc)
}

#[test]
fn passed_triangle(rt: HostRuntime) -> Result<(), Fail> {
    let mut rows = triangle();
    let net = ArcTable::new(3, 4, &mut rows);
    let prices = [units(0), units(2), units(4)];
    let least = [5, 5, 1, 6];
    assert_eq!(rt; order(&net, &least, &prices, 3), Ok(1));
    assert_eq!(rt; order(&net, &least, &prices, 5), Err(Stop::Absent(5)));
    assert_eq!(rt; order(&net, &least, &prices, 0), Err(Stop::Absent(0)));
    let passed = pass(&net, &least, &[0; 3], &prices, &[0; 3])?;
    assert_eq!(rt; passed.price(3), Ok(units(4)));
    assert_eq!(rt; passed.price(4), Err(Stop::Absent(4)));
    Ok(())
}

#[test]
fn not_passed(rt: HostRuntime) -> Result<(), Fail> {
    let mut rows = triangle();
    let net = ArcTable::new(3, 4, &mut rows);
    let prices = [units(0), units(2), units(4)];
    assert_eq!(rt; order(&net, &[0; 4], &[ZERO; 3], 1), Err(Stop::Kilter(4)));
    assert_eq!(rt; order(&net, &[0; 4], &prices, 1), Err(Stop::Kilter(2)));
    assert_eq!(rt;
        order(&net, &[5, 5, 1, 6], &[ZERO; 3], 1),
        Err(Stop::Kilter(1))
    );
    let dear = [units(0), units(2), units(255_000_001)];
    assert_eq!(rt; order(&net, &[5, 5, 1, 6], &dear, 1), Err(Stop::Cost(3)));
    assert_eq!(rt;
        order(&net, &[5, 5, 1, 7], &dear, 1),
        Err(Stop::Imbalance(1))
    );
    assert_eq!(rt; Stop::Kilter(2).number(), 14);
    Ok(())
}
