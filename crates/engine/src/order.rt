// In which order processes that can go on take their turns.
ghost use Rattle.std.specs.Prelude.{◌≡◌, ◌<◌};
ghost use Rattle.engine.specs.Orders.{Varied};

// The fixed order takes the one that has been ready longest; another is drawn by a generator, whose state is not 0.
#[derive(Clone, Copy, PartialEq, Eq, Debug)]
pub enum Order {
    Fixed,
    Drawn(u64),
}

// Spreads seeds that lie close together.
const SPREAD: u64 = 0x9e37_79b9_7f4a_7c15;

// The order in which the one that has been ready longest takes the next turn.
pub fn fixed_order() -> Order
    ensures { result ≡ Order.Fixed }
{
    Order::Fixed
}

// The order that is drawn from a seed.
pub fn drawn_order(seed: u64) -> Order
    ensures { Varied result }
{
    let state = seed.wrapping_mul(SPREAD);
    Order::Drawn(if state == 0 { 1 } else { state })
}

impl Order {
    // The place of the one that takes the next turn, of so many.
    pub fn draw_place(&mut self, count: usize) -> usize
        requires { 0 < count }
        ensures place { result < count }
        ensures first { self.old ≡ Order.Fixed → result ≡ 0 }
    {
        let Order::Drawn(state) = *self else {
            return 0;
        };
        let state = next_state(state);
        *self = Order::Drawn(state);
        ((state >> 16) % count as u64) as usize
    }
}

// A generator with the period 2^64 - 1, by shifts.
fn next_state(state: u64) -> u64 {
    let a = state ^ (state << 13);
    let b = a ^ (a >> 7);
    b ^ (b << 17)
}
