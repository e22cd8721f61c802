ghost use Rattle.std.specs.Prelude.{◌≡◌, IsOk, IfOk, IfErr, OnOk, Ok};
ghost use Rattle.transform_targets.specs.Features as features;
ghost use Rattle.transform_targets.specs.Targets as spec;
ghost use Rattle.transform_targets.specs.Words as words;

use crate::words::{cut_at, target_of, trim};
use crate::{ESFeature, Engine, FeatureTable, TargetFault, Version};
use js_ident::Ident;
use std::alloc::{AllocError, Global};

/// One version for each engine that is a target.
#[derive(Debug, Clone, Drop)]
pub struct EngineTargets {
    pub chrome: Option<Version>,
    pub deno: Option<Version>,
    pub edge: Option<Version>,
    pub firefox: Option<Version>,
    pub hermes: Option<Version>,
    pub ie: Option<Version>,
    pub ios: Option<Version>,
    pub node: Option<Version>,
    pub opera: Option<Version>,
    pub rhino: Option<Version>,
    pub safari: Option<Version>,
    pub es: Option<Version>,
}

impl EngineTargets {
    /// No targets.
    pub fn new(_alloc: Global) -> EngineTargets
        ensures { result ≡ spec.no_targets }
    {
        EngineTargets {
            chrome: None,
            deno: None,
            edge: None,
            firefox: None,
            hermes: None,
            ie: None,
            ios: None,
            node: None,
            opera: None,
            rhino: None,
            safari: None,
            es: None,
        }
    }

    /// The version that is the target of this engine.
    pub fn get(&self, engine: Engine) -> Option<Version>
        ensures { result ≡ spec.version_of self.now engine }
    {
        match engine {
            Engine::Chrome => self.chrome,
            Engine::Deno => self.deno,
            Engine::Edge => self.edge,
            Engine::Firefox => self.firefox,
            Engine::Hermes => self.hermes,
            Engine::Ie => self.ie,
            Engine::Ios => self.ios,
            Engine::Node => self.node,
            Engine::Opera => self.opera,
            Engine::Rhino => self.rhino,
            Engine::Safari => self.safari,
            Engine::Es => self.es,
        }
    }

    /// Makes this version the engine's target, in the place of any that it had. There is room for each engine, so it
    /// always answers `Ok`.
    pub fn insert(&mut self, engine: Engine, version: Version) -> Result<(), AllocError>
        ensures taken { IsOk result }
        ensures inserted { self.new ≡ spec.with_version engine version self.old }
    {
        match engine {
            Engine::Chrome => self.chrome = Some(version),
            Engine::Deno => self.deno = Some(version),
            Engine::Edge => self.edge = Some(version),
            Engine::Firefox => self.firefox = Some(version),
            Engine::Hermes => self.hermes = Some(version),
            Engine::Ie => self.ie = Some(version),
            Engine::Ios => self.ios = Some(version),
            Engine::Node => self.node = Some(version),
            Engine::Opera => self.opera = Some(version),
            Engine::Rhino => self.rhino = Some(version),
            Engine::Safari => self.safari = Some(version),
            Engine::Es => self.es = Some(version),
        }
        Ok(())
    }
}

const ENGINES: [Engine; 12] = [
    Engine::Chrome,
    Engine::Deno,
    Engine::Edge,
    Engine::Firefox,
    Engine::Hermes,
    Engine::Ie,
    Engine::Ios,
    Engine::Node,
    Engine::Opera,
    Engine::Rhino,
    Engine::Safari,
    Engine::Es,
];

impl EngineTargets {
    /// Whether some target lacks the feature, so that it has to be lowered.
    #[tactic(auto, unfolding(crate::specs::Targets::has_feature))]
    pub fn has_feature(&self, feature: ESFeature, table: &FeatureTable) -> bool
        ensures { result ≡ spec.has_feature self.now table.now feature }
    {
        ENGINES
            .iter()
            .any(|engine| self.is_lacking_at(*engine, feature, table))
    }

    // Whether this engine's target lacks the feature.
    fn is_lacking_at(&self, engine: Engine, feature: ESFeature, table: &FeatureTable) -> bool
        ensures { result ≡ spec.is_lacking_at table.now feature engine (spec.version_of self.now engine) }
    {
        match self.get(engine) {
            Some(version) => is_lacking(engine, version, feature, table),
            None => false,
        }
    }
}

// Whether this version of the engine lacks the feature. An engine that the table does not have lacks it.
fn is_lacking(engine: Engine, version: Version, feature: ESFeature, table: &FeatureTable) -> bool
    ensures { result ≡ features.is_lacking table.now feature engine version }
{
    match engine {
        Engine::Es => version.major < feature.year(),
        _ => match table.get(feature, engine) {
            Some(since) => version.is_below(since),
            None => true,
        },
    }
}

impl EngineTargets {
    /// The targets that the words of this text name; commas stand between them.
    pub fn from_target(alloc: Global, text: &str) -> Result<EngineTargets, TargetFault>
        ensures made { IfOk result (λ targets. words.targets_of (words.words_of text.now) ≡ Ok targets) }
        ensures refused { IfErr result (words.IsFaultOf (words.targets_of (words.words_of text.now))) }
    {
        let mut targets = EngineTargets::new(alloc);
        let mut rest = text;
        while let Some((word, more)) = cut_at(',', rest) {
            targets.enter(alloc, word)?;
            rest = more;
        }
        targets.enter(alloc, rest)?;
        Ok(targets)
    }

    /// The targets that these words name.
    pub fn from_target_list(alloc: Global, list: &[Ident]) -> Result<EngineTargets, TargetFault>
        ensures made { IfOk result (λ targets. words.targets_of list.now ≡ Ok targets) }
        ensures refused { IfErr result (words.IsFaultOf (words.targets_of list.now)) }
    {
        let mut targets = EngineTargets::new(alloc);
        for word in list {
            targets.enter(alloc, word.as_str())?;
        }
        Ok(targets)
    }

    // Adds the target that a word names.
    #[tactic(auto, unfolding(crate::specs::Words::with_word))]
    fn enter(&mut self, alloc: Global, text: &str) -> Result<(), TargetFault>
        ensures made { OnOk result (words.with_word text.now self.old ≡ Ok self.new) }
        ensures refused { IfErr result (words.IsFaultOf (words.with_word text.now self.old)) }
    {
        let word = trim(text);
        let target = target_of(alloc, word)?;
        if self.get(target.engine).is_some() {
            let word = Ident::new(alloc, word)?;
            return Err(TargetFault::Duplicate { word });
        }
        self.insert(target.engine, target.version)?;
        Ok(())
    }
}
