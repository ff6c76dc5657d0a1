//! The page's policy.

/// The Content-Security-Policy that the page has to be answered with (Content Security Policy Level 3): its own script and style by
/// their SHA-256, requests to where it came from, and nothing else. A page that differs from `PAGE` in its script or style runs no
/// script or has no style.
pub const POLICY: &str =
    "default-src 'none'; script-src 'sha256-iENzF4JR3m5++P8rFnRH66CtDmGPcm2/wmRWGCH4aGM='; style-src 'sha256-vK/tlxlVSGqzBmhGtNCg5R6vZcu+uS/jpPh3XmmmA0M='; connect-src 'self'; base-uri 'none'; form-action 'none'; frame-ancestors 'none'";
