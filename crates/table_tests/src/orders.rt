// Frames in an order.
use crate::made::made;
use crate::same::same;
use frame_order::FrameOrder;
use outside::Memory;
use std::alloc::Global;
use std::process::Abort;

// The frames of an order from its first one on.
fn listed(alloc: Global, order: &FrameOrder) -> Result<Vec<u32>, Memory> {
    Ok(order.iter().collect(alloc)?)
}

// They are these.
fn has(rt: &impl Abort, alloc: Global, order: &FrameOrder, frames: &[u32]) {
    same(rt, made(rt, listed(alloc, order)).as_slice(), frames);
}

#[test]
fn frames_go_last_and_out(rt: HostRuntime) {
    let alloc = rt.alloc();
    let mut order = made(&rt, FrameOrder::boot(alloc, 5));
    same(&rt, (order.frames(), order.first()), (5, None));
    order.push(3);
    order.push(0);
    order.push(4);
    order.push(1);
    has(&rt, alloc, &order, &[3, 0, 4, 1]);
    same(&rt, order.first(), Some(3));
    order.remove(4);
    has(&rt, alloc, &order, &[3, 0, 1]);
    order.remove(3);
    order.push(3);
    order.push(4);
    has(&rt, alloc, &order, &[0, 1, 3, 4]);
    order.remove(4);
    order.remove(0);
    order.remove(1);
    order.remove(3);
    same(&rt, order.first(), None);
    order.push(2);
    same(&rt, order.first(), Some(2));
}
