ghost use Rattle.std.specs.Prelude.{◌≡◌};
ghost use Rattle.transform_targets.specs.Targets as spec;

use crate::Version;

/// An edition of ECMAScript.
#[derive(Debug, Clone, Copy)]
pub enum ESTarget {
    ES2015,
    ES2016,
    ES2017,
    ES2018,
    ES2019,
    ES2020,
    ES2021,
    ES2022,
    ES2023,
    ES2024,
    ES2025,
    ES2026,
    ESNext,
}

impl ESTarget {
    // The year that the edition came out in; no year is behind that of `ESNext`.
    fn year(self) -> u32
        ensures { result ≡ spec.edition_year self }
    {
        match self {
            ESTarget::ES2015 => 2015,
            ESTarget::ES2016 => 2016,
            ESTarget::ES2017 => 2017,
            ESTarget::ES2018 => 2018,
            ESTarget::ES2019 => 2019,
            ESTarget::ES2020 => 2020,
            ESTarget::ES2021 => 2021,
            ESTarget::ES2022 => 2022,
            ESTarget::ES2023 => 2023,
            ESTarget::ES2024 => 2024,
            ESTarget::ES2025 => 2025,
            ESTarget::ES2026 => 2026,
            ESTarget::ESNext => u32::MAX,
        }
    }

    /// The edition as a version of `Engine::Es`.
    pub fn version(self) -> Version
        ensures { result ≡ spec.edition_version self }
    {
        Version {
            major: self.year(),
            minor: 0,
            patch: 0,
        }
    }
}
