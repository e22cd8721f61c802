// What turns switches on.
ghost use Rattle.std.specs.Prelude.{◌≡◌, Bool};
ghost use Rattle.transform_targets.specs.declared.feature.ESFeature.{ESFeature};

use transform_targets::ESFeature;

/// A choice of features that are lowered.
pub(crate) trait Choice {
    ghost chosen: { Self → ESFeature → Bool };

    fn is_on(&self, feature: ESFeature) -> bool
        ensures { result ≡ chosen self.now feature };
}
