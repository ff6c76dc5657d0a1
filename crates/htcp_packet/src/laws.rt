//! Laws of the message grammar and of signatures. The functions do nothing; their contracts are the laws.

ghost use Rattle.std.specs.Prelude.{◌≡◌, ◌↔◌, ◌<◌, ℕ, List, Some};
ghost use Rattle.wire_octets.specs.Octets.{IsOctets};
ghost use Rattle.htcp_packet.specs.Message.{Message, Spells};
ghost use Rattle.htcp_packet.specs.Reading.{Received, message_of};
ghost use Rattle.htcp_packet.specs.Signing.{IsGood, IsSignable, sealed, sealed_received, sign_of};
ghost use Rattle.htcp_packet.specs.Writing.{message_text};

use crate::verifying::Sign;

/// An octet string encodes at most one message, with one DATA.
pub fn one_message()
    ensures { (octets a b : List ℕ) (m n : Message) → Spells octets a m → Spells octets b n → (m ≡ n) × (a ≡ b) }
{}

/// The decoding function returns a message exactly if the octets encode it.
pub fn read_as_spelled()
    ensures { (octets raw : List ℕ) (m : Message) → IsOctets octets → (message_of octets ≡ Some (record { message = m; raw = raw })) ↔ Spells octets raw m }
{}

/// The verification function returns `Good` exactly for a good signature.
pub fn good_where_signed_so()
    ensures { (r : Received) (ends secret : List ℕ) (seconds : ℕ) → (sign_of r ends secret seconds ≡ Sign.Good) ↔ IsGood r ends secret seconds }
{}

/// What `sign` writes decodes to the signed message, and its signature is good for the same ends and secret at the second
/// of signing, except at second 4,294,967,295, the last one, where it expires at once.
pub fn verdict_of_signed()
    ensures read { (m : Message) (ends name secret : List ℕ) (seconds : ℕ) → IsSignable m ends name secret seconds
        → message_of (message_text (sealed m ends name secret seconds)) ≡ Some (sealed_received m ends name secret seconds) }
    ensures good { (m : Message) (ends name secret : List ℕ) (seconds : ℕ) → IsSignable m ends name secret seconds
        → IsGood (sealed_received m ends name secret seconds) ends secret seconds ↔ (seconds < 4294967295) }
{}
