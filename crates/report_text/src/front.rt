//! Numbers that follow one another, by the digits that they share.

ghost use Rattle.std.specs.Prelude.{◌≡◌, ◌+◌, ◌*◌, ◌/◌, ◌≤◌, ◌++◌, codes, decimal, length, take};
ghost use Rattle.report_text.specs.Listing.{indent};
ghost use Rattle.report_text.specs.Placed.{Placed};

use crate::place::{place_byte, place_front, place_indent, place_number};

/// How many bytes are written for a number, of which only its digits count.
pub(crate) const ROOM: usize = 16;

/// All digits of a number but its last one, `tens` in decimal. Those of a number near it are mostly the same: of the ten from `first` on.
#[derive(Clone, Copy)]
pub(crate) struct Front {
    tens: u32,
    first: u32,
    digits: [u8; ROOM],
    count: usize,
    ghost begun: { first ≡ 10 * tens },
    ghost shown: { take count digits ≡ decimal tens },
    ghost few: { count ≤ 10 },
    ghost room: { length digits ≡ 16 },
}

impl Front {
    /// The front digits of a number. They are found anew at one number of ten, and so apart from what is inlined.
    #[cold]
    #[inline(never)]
    pub(crate) fn of(number: u32) -> Front
        ensures { result.tens ≡ number / 10 }
    {
        let tens = number / 10;
        let mut digits = [b'0'; ROOM];
        let count = place_number(&mut digits, 0, tens);
        Front {
            tens,
            first: 10 * tens,
            digits,
            count,
        }
    }

    /// Turns to the front digits of a number.
    #[inline(always)]
    fn turn(&mut self, number: u32)
        requires { 10 ≤ number }
        ensures { self.new.tens ≡ number / 10 }
    {
        if number.wrapping_sub(self.first) >= 10 {
            *self = Front::of(number);
        }
    }
}

/// A number of these tens: the front digits, by one load and one store, and the last one.
#[inline(always)]
fn place_by(buf: &mut [u8], at: usize, front: &Front, number: u32) -> usize
    requires room { at + 16 ≤ length buf.old }
    requires long { 10 ≤ number }
    requires tens { front.now.tens ≡ number / 10 }
    ensures { Placed buf.old buf.new at (decimal number) result }
{
    place_front::<ROOM>(buf, at, &front.digits);
    place_byte(buf, at + front.count, b'0' + (number - front.first) as u8)
}

/// A number, by the front digits of the one before it.
#[inline(always)]
pub(crate) fn place_next(buf: &mut [u8], at: usize, front: &mut Front, number: u32) -> usize
    requires { at + 16 ≤ length buf.old }
    ensures placed { Placed buf.old buf.new at (decimal number) result }
    ensures short { result ≤ at + 10 }
{
    if number < 10 {
        return place_byte(buf, at, b'0' + number as u8);
    }
    front.turn(number);
    place_by(buf, at, front, number)
}

/// What stands before an instruction: its position, a space, and two spaces for each block around it.
#[inline(always)]
pub(crate) fn place_beginning(
    buf: &mut [u8],
    at: usize,
    front: &mut Front,
    pos: u32,
    depth: usize,
) -> usize
    requires { at + 17 + 2 * depth ≤ length buf.old }
    ensures { Placed buf.old buf.new at (decimal pos ++ (codes " " ++ indent depth)) result }
{
    let behind = place_next(buf, at, front, pos);
    let begun = place_byte(buf, behind, b' ');
    place_indent(buf, begun, depth)
}
