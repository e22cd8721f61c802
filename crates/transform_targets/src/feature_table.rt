ghost use Rattle.std.specs.Prelude.{◌≡◌, [], ◌∷◌, ◌++◌, OnErr, OnOk, IfOk};
ghost use Rattle.transform_targets.specs.Features as spec;

use crate::{ESFeature, Engine, Version};
use std::alloc::{AllocError, Global};
use std::marker::Model;

/// From this version on, the engine has the feature.
#[derive(Debug, Clone, Copy)]
pub struct Support {
    pub feature: ESFeature,
    pub engine: Engine,
    pub since: Version,
}

impl Support {
    fn is_of(&self, feature: ESFeature, engine: Engine) -> bool
        ensures { result ≡ spec.is_of feature engine self.now }
    {
        self.feature.place() == feature.place() && self.engine.place() == engine.place()
    }
}

/// From which version on each engine has each feature. Contracts see the entries, of which the last one counts.
#[derive(Debug, Drop, Clone)]
pub struct FeatureTable {
    entries: Vec<Support>,
}

impl Model for FeatureTable {
    ghost use Rattle.std.specs.Prelude.{List};
    ghost use Rattle.transform_targets.specs.declared.feature_table.Support.{Support};

    ghost Value = { List Support };

    ghost view = { λ t. t.entries.items };
}

impl FeatureTable {
    /// A table that no engine has a row in.
    pub fn new(alloc: Global) -> FeatureTable
        ensures { result ≡ [] }
    {
        FeatureTable {
            entries: Vec::new(alloc),
        }
    }

    /// Enters from which version on the engine has the feature, in the place of what was entered before.
    pub fn set(
        &mut self,
        feature: ESFeature,
        engine: Engine,
        version: Version,
    ) -> Result<(), AllocError>
        ensures entered { OnOk result (self.new ≡ self.old ++ record { feature = feature; engine = engine; since = version } ∷ []) }
        ensures kept { OnErr result (self.new ≡ self.old) }
    {
        self.entries.push(Support {
            feature,
            engine,
            since: version,
        })?;
        Ok(())
    }

    /// The version from which on the engine has the feature, if the table has it.
    pub fn get(&self, feature: ESFeature, engine: Engine) -> Option<Version>
        ensures { result ≡ spec.since self.now feature engine }
    {
        let last = self
            .entries
            .iter()
            .rev()
            .find(|entry| entry.is_of(feature, engine))?;
        Some(last.since)
    }
}
