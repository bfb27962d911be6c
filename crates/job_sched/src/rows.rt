// Numbers in rows.
ghost use Rattle.std.specs.Prelude.{◌≡◌, ◌<◌, ◌≤◌, ℕ, [], ◌∷◌, length, slice_get, true, false, IfOk, IsTrue, ◌↔◌};
ghost use Rattle.frame_order.specs.FrameOrder.{IsOrder, stands_in};
ghost use Rattle.job_sched.specs.Rows.{IsRows, moved, number, row, up_to};
ghost use Rattle.job_sched.specs.Orders.{order_at, put_in, taken_from};

use frame_order::FrameOrder;
use outside::Memory;
use std::alloc::Global;
use std::marker::Model;

/// A row of places: those that no fork has, and those of the forks outside, ready and in page wait.
#[derive(Clone, Copy)]
pub enum Row {
    Free,
    Outside,
    Ready,
    Waiting,
}

impl Row {
    /// Whether a fork stands there.
    pub fn has_forks(self) -> bool
        ensures { IsTrue result ↔ (1 ≤ number self) }
    {
        match self {
            Row::Free => false,
            Row::Outside | Row::Ready | Row::Waiting => true,
        }
    }

    /// Whether a member of the balance set stands there.
    pub fn has_members(self) -> bool
        ensures { IsTrue result ↔ (2 ≤ number self) }
    {
        match self {
            Row::Free | Row::Outside => false,
            Row::Ready | Row::Waiting => true,
        }
    }
}

// The orders of the rows.
#[derive(Drop)]
struct Orders {
    free: FrameOrder,
    outside: FrameOrder,
    ready: FrameOrder,
    waiting: FrameOrder,
}

/// Each number below a bound stands in one of the rows, and knows in which.
#[derive(Drop)]
pub struct Rows {
    orders: Orders,
    stands: Vec<Row>,
}

impl Model for Rows {
    ghost use Rattle.std.specs.Prelude.{map};
    ghost use Rattle.job_sched.specs.Rows.{Rows, number};
    ghost use Rattle.job_sched.specs.Orders.{AreKept, rows_view};

    ghost Value = { Rows };

    ghost view = { λ r. rows_view r.orders (map number r.stands.items) };

    ghost invariant = { λ r. AreKept r.orders (map number r.stands.items) };
}

/// The numbers below a bound, rising.
#[tactic(auto, unfolding(crate::specs::Rows::up_to))]
pub fn rising(alloc: Global, numbers: u32) -> Result<FrameOrder, Memory>
    ensures { IfOk result (λ o. o ≡ record { frames = numbers; order = up_to numbers }) }
{
    let mut order = FrameOrder::boot(alloc, numbers)?;
    for n in 0..numbers {
        order.push(n);
    }
    Ok(order)
}

// One of the orders.
fn order_at(orders: &Orders, k: Row) -> &FrameOrder
    ensures { result.now ≡ order_at orders.now (number k) }
{
    match k {
        Row::Free => &orders.free,
        Row::Outside => &orders.outside,
        Row::Ready => &orders.ready,
        Row::Waiting => &orders.waiting,
    }
}

// A number goes out of the order in which it stands.
fn take_from(orders: &mut Orders, k: Row, n: u32)
    requires here { stands_in n (order_at orders.old (number k)).order ≡ true }
    ensures { orders.new ≡ taken_from orders.old (number k) n }
{
    match k {
        Row::Free => orders.free.remove(n),
        Row::Outside => orders.outside.remove(n),
        Row::Ready => orders.ready.remove(n),
        Row::Waiting => orders.waiting.remove(n),
    }
}

// A number that stands in none goes last into an order.
fn put_in(orders: &mut Orders, k: Row, n: u32)
    requires below { n < (order_at orders.old (number k)).frames }
    requires absent { stands_in n (order_at orders.old (number k)).order ≡ false }
    ensures { orders.new ≡ put_in orders.old (number k) n }
{
    match k {
        Row::Free => orders.free.push(n),
        Row::Outside => orders.outside.push(n),
        Row::Ready => orders.ready.push(n),
        Row::Waiting => orders.waiting.push(n),
    }
}

impl Rows {
    /// All numbers are free, rising.
    pub fn boot(alloc: Global, numbers: u32) -> Result<Self, Memory>
        ensures { IfOk result (λ r. r ≡ record { numbers = numbers; rows = up_to numbers ∷ [] ∷ [] ∷ [] ∷ [] }) }
    {
        let free = rising(alloc, numbers)?;
        let outside = FrameOrder::boot(alloc, numbers)?;
        let ready = FrameOrder::boot(alloc, numbers)?;
        let waiting = FrameOrder::boot(alloc, numbers)?;
        let stands = vec![in alloc; Row::Free; numbers as usize]?;
        Ok(Rows {
            orders: Orders {
                free,
                outside,
                ready,
                waiting,
            },
            stands,
        })
    }

    /// The row in which a number stands.
    pub fn row_of(&self, n: u32) -> Row
        requires { n < self.now.numbers }
        ensures stands { stands_in n (row self.now (number result)) ≡ true }
        ensures below { number result < 4 }
        ensures rows { IsRows self.now }
    {
        self.stands[n as usize]
    }

    /// The first number of a row. None exactly where it has none.
    pub fn first(&self, k: Row) -> Option<u32>
        ensures first { result ≡ slice_get (row self.now (number k)) 0 }
        ensures rows { IsRows self.now }
    {
        order_at(&self.orders, k).first()
    }

    /// How many numbers stand in a row.
    pub fn count(&self, k: Row) -> usize
        ensures { result ≡ length (row self.now (number k)) }
    {
        order_at(&self.orders, k).iter().count()
    }

    /// Whether one number alone stands in a row.
    pub fn is_single(&self, k: Row) -> bool
        ensures { IsTrue result ↔ (length (row self.now (number k)) ≡ 1) }
    {
        let mut numbers = order_at(&self.orders, k).iter();
        numbers.next().is_some() && numbers.next().is_none()
    }

    /// Puts a number last into a row, and out of the one in which it stands.
    pub fn put_last(&mut self, n: u32, k: Row)
        requires { n < self.old.numbers }
        ensures moved { self.new ≡ moved self.old n (number k) }
        ensures rows { IsRows self.new }
    {
        take_from(&mut self.orders, self.stands[n as usize], n);
        put_in(&mut self.orders, k, n);
        self.stands[n as usize] = k;
    }
}
