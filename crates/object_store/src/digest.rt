//! Incremental computation of an object digest.

ghost use Rattle.std.specs.Prelude.{◌≡◌, ◌++◌, ℕ, List};
ghost use Rattle.md5.specs.Md5.{Holds};
ghost use Rattle.object_store.specs.Object.{digest_of, head_of, spelled_field, spelled_head, spelled_number, spelled_octets};

use byteorder::{BigEndian, ByteOrder};
use md5::{Digest, Md5};

/// MD5 of the fields of an object. Each list is preceded by its length; lengths and numbers are 8 octets, big-endian.
#[tactic(auto, unfolding(crate::specs::Object::digest_of))]
pub(crate) fn object_digest(
    status: u16,
    head: &[(Vec<u8>, Vec<u8>)],
    body: &[u8],
    age: u32,
    life: u32,
) -> [u8; 16]
    ensures { result ≡ digest_of status (head_of head.now) body.now age life }
{
    let mut hasher = Md5::new();
    add_number(&mut hasher, u64::from(status));
    add_head(&mut hasher, head);
    add_octets(&mut hasher, body);
    add_number(&mut hasher, u64::from(age));
    add_number(&mut hasher, u64::from(life));
    hasher.finalize()
}

// Hashes a number.
#[tactic(auto, unfolding(crate::specs::Object::spelled_number))]
fn add_number(hasher: &mut Md5, number: u64)
    ensures { (m : List ℕ) → Holds hasher.old m → Holds hasher.new (m ++ spelled_number number) }
{
    let mut octets = [0u8; 8];
    BigEndian::write_u64(&mut octets, number);
    hasher.update(&octets);
}

// Hashes an octet string, preceded by its length.
fn add_octets(hasher: &mut Md5, octets: &[u8])
    ensures { (m : List ℕ) → Holds hasher.old m → Holds hasher.new (m ++ spelled_octets octets.now) }
{
    add_number(hasher, octets.len() as u64);
    hasher.update(octets);
}

// Hashes a head: the number of fields, then each field.
fn add_head(hasher: &mut Md5, head: &[(Vec<u8>, Vec<u8>)])
    ensures { (m : List ℕ) → Holds hasher.old m → Holds hasher.new (m ++ spelled_head (head_of head.now)) }
{
    add_number(hasher, head.len() as u64);
    for field in head {
        add_field(hasher, field);
    }
}

// Hashes a field: its name, then its value.
fn add_field(hasher: &mut Md5, field: &(Vec<u8>, Vec<u8>))
    ensures { (m : List ℕ) → Holds hasher.old m → Holds hasher.new (m ++ spelled_field (field.now.0.items, field.now.1.items)) }
{
    add_octets(hasher, &field.0);
    add_octets(hasher, &field.1);
}
