use js_ident::Ident;
use transform_targets::EngineTargets;

/// The option `modules` of Babel's preset `env`.
#[derive(Debug, Default, Clone, Copy)]
pub enum BabelModule {
    #[default]
    Auto,
    Amd,
    Umd,
    Systemjs,
    Commonjs,
    Boolean(bool),
}

/// The options of Babel's preset `env`.
#[derive(Debug, Clone, Drop)]
pub struct BabelEnvOptions {
    pub targets: EngineTargets,
    pub bugfixes: bool,
    pub spec: bool,
    pub loose: bool,
    pub modules: BabelModule,
    pub debug: bool,
    pub force_all_transforms: bool,
    pub config_path: Option<Ident>,
    pub ignore_browserslist_config: bool,
    pub shipped_proposals: bool,
}
