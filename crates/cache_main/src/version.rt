//! The version of the program.

/// The day of the newest entry of CHANGELOG.md, and the revision of the sources that this program was built from, as `tools/revision`
/// sums them up.
pub const VERSION: &str = "2026-11-26+24605d821fe5";
