//! Laws of the message grammar. The functions do nothing; their contracts are the laws.

ghost use Rattle.std.specs.Prelude.{◌≡◌, ◌↔◌, List, ℕ};
ghost use Rattle.icp_packet.specs.Message.{Message, Spells};
ghost use Rattle.icp_packet.specs.Reading.{message_of};

/// An octet string encodes at most one message.
pub fn one_message()
    ensures { (octets : List ℕ) (m n : Message) → Spells octets m → Spells octets n → m ≡ n }
{}

/// A message has at most one encoding.
pub fn one_spelling()
    ensures { (a b : List ℕ) (m : Message) → Spells a m → Spells b m → a ≡ b }
{}

/// The decoding function returns a message exactly if the octets encode it.
pub fn message_read_is_spelled()
    ensures { (octets : List ℕ) (m : Message) → (message_of octets ≡ Some m) ↔ Spells octets m }
{}
