// The budget that no search uses up.

use networks::{Bounds, MOST_ARCS};

// As many laps as the largest network can need: one for each unit between the limits, for each arc.
pub const FULL_BUDGET: u32 = 2 * Bounds::LIMIT as u32 * MOST_ARCS as u32;

// 2,000,000 laps for each of 1,024 arcs.
const _: () = prove!(FULL_BUDGET == 2_000_000 * 1_024);
