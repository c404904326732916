//! What a move's byte asks for.
ghost use Rattle.std.specs.Prelude.{◌≡◌, MatchResult};
ghost use Rattle.run.specs.Orders.{Asks, Unknown};

use memory::Side;

// no `Move` of the queue with nothing in the item's place: an order says nothing of an item, and a move offers one
#[derive(Clone, Copy, Debug, PartialEq, Eq)]
pub enum Order {
    /// A step of the put under way, or the first of one that offers the next item.
    Feed,
    /// A step of the take under way, or the first of one that begins.
    Draw,
    Drain,
    /// A landing for a side, with its pick.
    Land(Side, u8),
}

/// A byte that asks for nothing.
#[derive(Clone, Copy, Debug, PartialEq, Eq)]
pub struct UnknownByte;

impl TryFrom<u8> for Order {
    type Error = UnknownByte;

    ghost try_from_gives = { λ byte r. MatchResult r (Asks byte) (λ _. Unknown byte) };

    fn try_from(byte: u8) -> Result<Order, UnknownByte> {
        match byte {
            0x00 => Ok(Order::Feed),
            0x01 => Ok(Order::Draw),
            0x02 => Ok(Order::Drain),
            0x40..=0x7F => Ok(Order::Land(Side::Feeder, byte - 0x40)),
            0x80..=0xBF => Ok(Order::Land(Side::Drawer, byte - 0x80)),
            _ => Err(UnknownByte),
        }
    }
}
