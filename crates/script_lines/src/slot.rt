//! Words that name a filter slot.
ghost use Rattle.std.specs.Prelude.{◌≡◌};
ghost use Rattle.script_lines.specs.Words.{number, socket, slot_of_socket, slot_of_neighbour};

use super::choice::socket;
use super::number::word;
use filter_slots::Slot;

/// The slot of the socket `icp` or `htcp`; `None` for any other word.
pub(crate) fn socket_slot(text: &[u8]) -> Option<Slot>
    ensures { result ≡ slot_of_socket (socket text.now) }
{
    match socket(text) {
        Some(socket) => Some(Slot::Socket(socket)),
        None => None,
    }
}

/// The slot of the neighbour with this index; `None` if the word is not a 32-bit number.
pub(crate) fn neighbour_slot(text: &[u8]) -> Option<Slot>
    ensures { result ≡ slot_of_neighbour (number 4294967295 text.now) }
{
    match word(text) {
        Some(n) => Some(Slot::Neighbour(n as usize)),
        None => None,
    }
}
