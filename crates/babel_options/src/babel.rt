ghost use Rattle.std.specs.Prelude.{◌≡◌, ◌↔◌, ◌⊎◌, IsTrue, ◌||◌, true, false, Some, codes};
ghost use Rattle.babel_options.specs.Babel as spec;

use crate::{BabelPlugins, BabelPresets};
use js_ident::Ident;

/// The systems that Babel's own tests run on.
#[derive(Debug, Clone, Copy)]
pub enum TestOs {
    Linux,
    Win32,
    Windows,
    Darwin,
}

impl TestOs {
    pub fn is_windows(&self) -> bool
        ensures { IsTrue result ↔ ((self.now ≡ TestOs.Win32) ⊎ (self.now ≡ TestOs.Windows)) }
    {
        matches!(self, TestOs::Win32 | TestOs::Windows)
    }
}

/// Babel's options.
#[derive(Debug, Clone, Drop)]
pub struct BabelOptions {
    pub cwd: Option<Ident>,
    pub plugins: BabelPlugins,
    pub presets: BabelPresets,
    pub source_type: Option<Ident>,
    pub throws: Option<Ident>,
    pub babel_8_breaking: Option<bool>,
    pub os: Option<Vec<TestOs>>,
    pub allow_return_outside_function: bool,
    pub allow_await_outside_function: bool,
    pub allow_undeclared_exports: bool,
    pub allow_new_target_outside_function: bool,
    pub allow_super_outside_method: bool,
    pub external_helpers: bool,
}

impl BabelOptions {
    /// Whether JSX is read or lowered.
    pub fn is_jsx(&self) -> bool
        ensures { result ≡ (self.now.plugins.syntax_jsx || self.now.plugins.react_jsx || self.now.plugins.react_jsx_dev || self.now.presets.jsx) }
    {
        self.plugins.syntax_jsx
            || self.plugins.react_jsx
            || self.plugins.react_jsx_dev
            || self.presets.jsx
    }

    /// Whether TypeScript is read.
    pub fn is_typescript(&self) -> bool
        ensures { result ≡ spec.has_type_script self.now.plugins.syntax_typescript }
    {
        self.plugins.syntax_typescript.is_some()
    }

    /// Whether a declaration file of TypeScript is read.
    pub fn is_typescript_definition(&self) -> bool
        ensures { result ≡ spec.has_dts self.now.plugins.syntax_typescript }
    {
        match self.plugins.syntax_typescript {
            Some(options) => options.dts,
            None => false,
        }
    }

    /// Whether what may be read as JSX is refused in TypeScript.
    pub fn has_disallow_ambiguous_jsx_like(&self) -> bool
        ensures { result ≡ spec.disallows_jsx_like self.now.plugins.syntax_typescript }
    {
        match self.plugins.syntax_typescript {
            Some(options) => options.disallow_ambiguous_jsx_like,
            None => false,
        }
    }

    /// Whether the source is a module.
    pub fn is_module(&self) -> bool
        ensures { result ≡ spec.is_text (codes "module") self.now.source_type }
    {
        self.is_source_type("module")
    }

    /// Whether the source may be a module or a script.
    pub fn is_unambiguous(&self) -> bool
        ensures { result ≡ spec.is_text (codes "unambiguous") self.now.source_type }
    {
        self.is_source_type("unambiguous")
    }

    /// Whether the source is a CommonJS module.
    pub fn is_commonjs(&self) -> bool
        ensures { result ≡ spec.is_text (codes "commonjs") self.now.source_type }
    {
        self.is_source_type("commonjs")
    }

    fn is_source_type(&self, name: &str) -> bool
        ensures { result ≡ spec.is_text name.now self.now.source_type }
    {
        match &self.source_type {
            Some(source_type) => source_type.as_str() == name,
            None => false,
        }
    }
}
