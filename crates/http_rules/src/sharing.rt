//! Whom the answer of a fetch is for.
ghost use Rattle.std.specs.Prelude.{◌≡◌};
ghost use Rattle.http_rules.specs.Sharing.{is_only_for_who_began};

/// Whether the answer of a fetch is for the client alone that began it, and for none that joined it meanwhile (RFC 9111, section 4): the
/// asker joined, the answer may not be stored, as its life says, and it is no stored one that is given though it is stale.
pub fn is_only_for_who_began(is_joined: bool, life: u32, is_stale: bool) -> bool
    ensures alone { result ≡ is_only_for_who_began is_joined life is_stale }
{
    is_joined && (life == 0 && !is_stale)
}
