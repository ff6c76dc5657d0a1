//! Lemmas about numbers and their octets.

ghost use Rattle.std.specs.Prelude.{◌≡◌, ◌<◌, ◌≤◌, ◌^◌, ◌++◌, ℕ, List, length, take};
ghost use Rattle.byteorder.specs.Endian.{big_bytes, big_number};
ghost use Rattle.wire_octets.specs.Octets.{IsOctets};

/// Reading the octets of a number gives the number, whatever follows them.
pub fn number_from_its_octets()
    ensures { (n x : ℕ) (rest : List ℕ) → x < 256 ^ n → big_number n (big_bytes n x ++ rest) ≡ x }
{}

/// Writing the number that was read from the first two or four octets gives these octets.
pub fn octets_from_their_number()
    ensures two { (octets : List ℕ) → IsOctets octets → 2 ≤ length octets → big_bytes 2 (big_number 2 octets) ≡ take 2 octets }
    ensures four { (octets : List ℕ) → IsOctets octets → 4 ≤ length octets → big_bytes 4 (big_number 4 octets) ≡ take 4 octets }
{}
