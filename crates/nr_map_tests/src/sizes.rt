//! Openings within their limits and past them. What is within them is opened, or refused for memory alone.
use crate::same::is_same;
use crate::worked::of_sizes;
use nr_core::Core;
use nr_map::{ReaderMap, Shape};
use nr_model::OpenFault;
use std::alloc::Global;

// A smallest map's sizes with each one just past its limits, below and above.
const PAST: [(u32, u32, u32); 6] = [
    (0, 1, 1),
    (65_537, 1, 1),
    (1, 0, 1),
    (1, 131_073, 1),
    (1, 1, 0),
    (1, 1, 1_025),
];

// The same with each one at its limit.
const WITHIN: [(u32, u32, u32); 4] = [(1, 1, 1), (65_536, 1, 1), (1, 131_072, 1), (1, 1, 1_024)];

fn map_fault(alloc: Global, (keys, slots, readers): (u32, u32, u32)) -> Option<OpenFault> {
    ReaderMap::open(alloc, keys, slots, readers, 0).err()
}

fn core_fault(alloc: Global, (keys, slots, readers): (u32, u32, u32)) -> Option<OpenFault> {
    Core::open(alloc, keys, slots, readers, 0).err()
}

#[test]
fn sizes_past_their_limits_are_refused(rt: HostRuntime) {
    for sizes in PAST {
        is_same(
            &rt,
            &map_fault(rt.alloc(), sizes),
            &Some(OpenFault::BadSize),
        );
        is_same(
            &rt,
            &core_fault(rt.alloc(), sizes),
            &Some(OpenFault::BadSize),
        );
    }
}

#[test]
fn sizes_at_their_limits_open(rt: HostRuntime) {
    for sizes in WITHIN {
        is_same(&rt, &map_fault(rt.alloc(), sizes), &None);
        is_same(&rt, &core_fault(rt.alloc(), sizes), &None);
    }
}

// The fault of a map of one key, one slot and one reader, and that of its machine.
fn faults(alloc: Global, first_number: u64, rows: u32) -> [Option<OpenFault>; 2] {
    let shape = Shape {
        first_number,
        ..of_sizes(1, 1, 1, rows)
    };
    [
        ReaderMap::open_with(alloc, &shape).err(),
        Core::open_with(alloc, &shape).err(),
    ]
}

#[test]
fn numbers_and_rows_have_limits(rt: HostRuntime) {
    let refused = [Some(OpenFault::BadSize); 2];
    is_same(&rt, &faults(rt.alloc(), 4_194_303, 255), &[None, None]);
    is_same(&rt, &faults(rt.alloc(), 0, 1), &[None, None]);
    is_same(&rt, &faults(rt.alloc(), 4_194_304, 15), &refused);
    is_same(&rt, &faults(rt.alloc(), 0, 0), &refused);
    is_same(&rt, &faults(rt.alloc(), 0, 256), &refused);
}
