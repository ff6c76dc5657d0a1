//! Requests without any field that decides how they are answered.
ghost use Rattle.std.specs.Prelude.{◌≡◌, ℕ, List, None, Ok, IsTrue, false, codes};
ghost use Rattle.std.specs.List.{list_any};
ghost use Rattle.node_terms.specs.declared.mode.Mode.TheVariants as mode;
ghost use Rattle.http_rules.specs.declared.conditions.StoredAnswer.TheVariants as answer;
ghost use Rattle.http_rules.specs.Fields.{Field, fields_of};
ghost use Rattle.http_rules.specs.Requests.{mode_of};
ghost use Rattle.http_rules.specs.Choice.{chosen};
ghost use Rattle.http_rules.specs.Conditions.{answer_to};
ghost use Rattle.http_rules.specs.Loops.{has_come_back};
ghost use Rattle.http_rules.specs.Plain.{decides, is_plain_request};

use http_header::HeaderMap;

/// Whether a request has no field that decides how it is answered: Authorization, Cookie, Cache-Control, Pragma, Range, a condition
/// or CDN-Loop. Most requests have none, and one pass over the names tells it.
///
/// Then a GET is answered as `Mode::Shared`, by the published rules (`classify`) as in the profile `rfc9111` (`choose`, where nothing
/// stored is looked at), the answer from a stored object is the whole of it (`answer_to`), and the request has come through no
/// cache that marks requests (`has_come_back`).
pub fn is_plain_request(head: &HeaderMap) -> bool
    ensures value { result ≡ is_plain_request (fields_of head.now) }
    ensures published { IsTrue result → mode_of (codes "GET") (fields_of head.now) ≡ Ok mode.Shared }
    ensures fresh { IsTrue result → chosen (codes "GET") (fields_of head.now) None ≡ Ok mode.Shared }
    ensures whole { (method : List ℕ) (object : List Field) (length : ℕ) → IsTrue result
        → answer_to method (fields_of head.now) object length ≡ answer.Whole }
    ensures first { (mark : List ℕ) → IsTrue result → has_come_back mark (fields_of head.now) ≡ false }
{
    !has_deciding_field(head)
}

// Whether a request has a field that decides how it is answered.
fn has_deciding_field(head: &HeaderMap) -> bool
    ensures { result ≡ list_any (λ f. decides f.0) (fields_of head.now) }
{
    for (name, _) in head.iter() {
        if decides(name.as_bytes()) {
            return true;
        }
    }
    false
}

// Whether fields with this name decide how a request is answered.
fn decides(name: &[u8]) -> bool
    ensures { result ≡ decides name.now }
{
    name == b"authorization".as_slice()
        || name == b"cookie".as_slice()
        || name == b"cache-control".as_slice()
        || name == b"pragma".as_slice()
        || name == b"range".as_slice()
        || name == b"if-match".as_slice()
        || name == b"if-none-match".as_slice()
        || name == b"if-modified-since".as_slice()
        || name == b"if-unmodified-since".as_slice()
        || name == b"if-range".as_slice()
        || name == b"cdn-loop".as_slice()
}
