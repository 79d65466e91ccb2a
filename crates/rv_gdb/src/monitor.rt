//! The commands that a user gives by GDB's `monitor`, as `specs/Monitor.antt` has them.
ghost use Rattle.std.specs.Prelude.{◌≡◌};
ghost use Rattle.rv_gdb.specs.Monitor as spec;

use crate::fields::is;
use rv_text::decimal::read_decimal;
use rv_text::pieces::Pieces;

/// What a user asks.
#[derive(Clone, Copy)]
pub enum Order {
    /// `entry N`: to place N.
    Entry(u32),
    /// `ending N`: the line of ending N, and to the place after its pause.
    Ending(u32),
    /// `hit N`: to before the entry of the access that met the pause of ending N.
    Hit(u32),
    /// `where`: the place, and the entry that follows.
    Where,
    /// `help`: what there is.
    Help,
}

/// The command that a text says. None where there is none.
#[tactic(auto, unfolding(crate::specs::Monitor::order_in))]
pub fn read_order(text: &[u8]) -> Option<Order>
    ensures { result ≡ spec.order_in text.now }
{
    let mut words = Pieces::of(text, b' ');
    let name = words.next_piece()?;
    let Some(word) = words.next_piece() else {
        return plain_order(name);
    };
    if words.next_piece().is_some() {
        return None;
    }
    numbered_order(name, word)
}

fn plain_order(name: &[u8]) -> Option<Order>
    ensures { result ≡ spec.plain_order name.now }
{
    if is(name, b"where") {
        Some(Order::Where)
    } else if is(name, b"help") {
        Some(Order::Help)
    } else {
        None
    }
}

fn numbered_order(name: &[u8], word: &[u8]) -> Option<Order>
    ensures { result ≡ spec.numbered_order name.now word.now }
{
    let number = read_decimal(word, u32::MAX)?;
    if is(name, b"entry") {
        Some(Order::Entry(number))
    } else if is(name, b"ending") {
        Some(Order::Ending(number))
    } else if is(name, b"hit") {
        Some(Order::Hit(number))
    } else {
        None
    }
}
