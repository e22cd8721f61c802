ghost use Rattle.std.specs.Prelude.{◌≡◌};
ghost use Rattle.transform_targets.specs.Versions as spec;

/// The version of an engine. That of an edition has its year as `major`.
#[derive(Debug, Clone, Copy)]
pub struct Version {
    pub major: u32,
    pub minor: u32,
    pub patch: u32,
}

impl Version {
    /// Whether this version came before the other.
    pub fn is_below(self, other: Version) -> bool
        ensures { result ≡ spec.is_below self other }
    {
        if self.major != other.major {
            self.major < other.major
        } else if self.minor != other.minor {
            self.minor < other.minor
        } else {
            self.patch < other.patch
        }
    }
}
