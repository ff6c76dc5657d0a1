//! The operator's refresh rules.
ghost use Rattle.std.specs.Prelude.{◌≡◌};
ghost use Rattle.std.specs.Option.{option_copied};
ghost use Rattle.http_rules.specs.Refresh.{fits, first_rule, ruled_lifetime};

/// A text and where it stands in a URL. Octets are compared as they are, with regard to case.
#[derive(Drop)]
pub enum UrlPlace {
    /// At its beginning.
    Prefix(Vec<u8>),
    /// At its end.
    Suffix(Vec<u8>),
}

impl UrlPlace {
    // Whether a URL has the text in this place.
    fn fits(&self, url: &[u8]) -> bool
        ensures { result ≡ fits url.now self.now }
    {
        match self {
            UrlPlace::Prefix(text) => url.starts_with(text.as_slice()),
            UrlPlace::Suffix(text) => url.ends_with(text.as_slice()),
        }
    }
}

/// The freshness lifetime that the operator gives to responses from some URLs.
#[derive(Drop)]
pub struct RefreshRule {
    /// What the URLs, as cache keys, begin or end with.
    pub place: UrlPlace,
    /// The lifetime in seconds; one above 2,147,483,648 counts as that.
    pub seconds: u32,
    /// Whether it counts instead of a lifetime that the response states itself.
    pub overrides: bool,
}

impl RefreshRule {
    /// The lifetime in seconds under this rule of a response that states this one itself.
    pub(crate) fn lifetime(&self, stated: Option<u64>) -> u64
        ensures { result ≡ ruled_lifetime self.now stated }
    {
        let own = u64::from(self.seconds);
        if self.overrides {
            own
        } else {
            stated.unwrap_or(own)
        }
    }
}

/// The first rule that fits a URL, if one does.
pub(crate) fn first_rule<'a>(rules: &'a [RefreshRule], url: &[u8]) -> Option<&'a RefreshRule>
    ensures { option_copied result ≡ first_rule url.now rules.now }
{
    rules.iter().find(|rule| rule.place.fits(url))
}
