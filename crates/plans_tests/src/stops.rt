// The stops 1, 3, 4, 5 and 7 through open, settle and take-up, on a table of two arcs.

use costs::Plain;
use makes::{ArcTable, Row};
use networks::Stop;
use plans::{open, settle, take_up};
use std::test::Fail;
use tests_kit::{ZERO, row};

const LARGE: i32 = 1_000_001;

// What open, settle and take-up tell of these nodes, these rows and this flow.
fn told(nodes: usize, second: Row<Plain>, flow: [i32; 2]) -> [Option<Stop>; 3] {
    let mut rows = [row(1, 2, 0, 5, 1), second];
    let net = ArcTable::new(nodes, 2, &mut rows);
    let mut kept = flow;
    let mut needs = [0; 2];
    let mut prices = [ZERO; 2];
    let mut marks = [0; 2];
    [
        open(&net, &flow, &mut needs, &prices, &marks).err(),
        settle(&net, &mut kept, &needs, &mut prices, &mut marks, 9).err(),
        take_up(&net, &mut kept, &needs, &prices, &marks, &flow).err(),
    ]
}

#[test]
fn first_stops(rt: HostRuntime) -> Result<(), Fail> {
    let fit = row(2, 1, 0, 5, 1);
    assert_eq!(rt; told(0, fit, [0, 0]), [Some(Stop::Counts); 3]);
    assert_eq!(rt;
        told(2, row(2, 3, 0, 5, 1), [0, 0]),
        [Some(Stop::Ends(2)); 3]
    );
    assert_eq!(rt;
        told(2, row(2, 1, 0, 5, 1_000_001), [0, 0]),
        [Some(Stop::Cost(2)); 3]
    );
    assert_eq!(rt; told(2, fit, [0, LARGE]), [Some(Stop::Flow(2)); 3]);
    assert_eq!(rt;
        told(2, row(2, 1, 5, 4, 1), [0, 0]),
        [Some(Stop::Bounds(2)); 3]
    );
    // Of two faults the first: the flow of arc 1 before the ends of arc 2, and in one arc the bounds before the flow.
    assert_eq!(rt;
        told(2, row(2, 3, 0, 5, 1), [LARGE, 0]),
        [Some(Stop::Flow(1)); 3]
    );
    assert_eq!(rt;
        told(2, row(2, 1, 5, 4, 1), [0, LARGE]),
        [Some(Stop::Bounds(2)); 3]
    );
    Ok(())
}
