ghost use Rattle.std.specs.Prelude.{◌≡◌, ◌↔◌, IsTrue};
ghost use Rattle.transform_options.specs.Babel as spec;

use babel_options::{BabelModule, BabelPlugins};

/// The form of module that code is made into.
#[derive(Debug, Default, Clone, Copy)]
pub enum Module {
    #[default]
    Preserve,
    Esm,
    CommonJS,
}

impl Module {
    pub fn is_esm(self) -> bool
        ensures { IsTrue result ↔ (self ≡ Module.Esm) }
    {
        matches!(self, Module::Esm)
    }

    pub fn is_commonjs(self) -> bool
        ensures { IsTrue result ↔ (self ≡ Module.CommonJS) }
    {
        matches!(self, Module::CommonJS)
    }

    /// The form that the option `modules` of the preset `env` asks for, where it is one of these.
    pub fn from_babel_module(value: &BabelModule) -> Option<Module>
        ensures { result ≡ spec.module_of value.now }
    {
        match value {
            BabelModule::Commonjs => Some(Module::CommonJS),
            BabelModule::Auto | BabelModule::Boolean(false) => Some(Module::Preserve),
            _ => None,
        }
    }

    /// The form that the plugins ask for, if they do.
    pub fn from_babel_plugins(plugins: &BabelPlugins) -> Option<Module>
        ensures { result ≡ spec.module_of_plugins plugins.now }
    {
        if plugins.modules_commonjs {
            Some(Module::CommonJS)
        } else {
            None
        }
    }
}
