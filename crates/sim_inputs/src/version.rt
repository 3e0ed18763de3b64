//! Which version of the program this is.

/// What `--version` says behind the program's name. The launchers, `smtsim` and the one that tools/install makes, say
/// the number before the comma too, and behind it the commit and whether it is proved, which no program knows of itself.
pub(crate) const VERSION: &str = "1.0.0, a build of which nothing is known";
