//! Lemmas on the definitions of specs/. The functions do nothing at run time.

ghost use Rattle.std.specs.Prelude.{◌≡◌, List, ℕ, ◌∷◌, ◌++◌};
ghost use Rattle.plain_node.specs.HtcpRequests.{uri_key};
ghost use Rattle.plain_node.specs.UriKeys.{NamesPort80, behind_scheme};

/// The key of a URI whose host is followed by `:80` and a slash is the URI without `:80`.
pub fn key_without_port()
    ensures { (uri host rest : List ℕ) → NamesPort80 uri host rest → uri_key uri ≡ behind_scheme (host ++ 47 ∷ rest) }
{}

/// The key of every other URI is the URI itself.
pub fn key_is_the_uri()
    ensures { (uri : List ℕ) → ((host rest : List ℕ) → NamesPort80 uri host rest → ⊥) → uri_key uri ≡ uri }
{}
