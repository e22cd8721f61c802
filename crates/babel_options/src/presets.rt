use crate::env::BabelEnvOptions;
use js_ident::Ident;

/// What Babel's option `presets` has.
#[derive(Debug, Clone, Drop)]
pub struct BabelPresets {
    pub errors: Vec<Ident>,
    pub unsupported: Vec<Ident>,
    pub env: Option<BabelEnvOptions>,
    pub jsx: bool,
    pub typescript: bool,
}
