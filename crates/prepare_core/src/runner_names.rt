ghost use Rattle.module_model.specs.Shape.{marked};
ghost use Rattle.std.specs.Prelude.{◌≡◌, codes};

use small_tree::Ident;
use std::alloc::{AllocError, Global};

/// The names in the runner's forms. They are made once for a module, and each place where one stands shares it.
#[derive(Drop)]
pub(crate) struct RunnerNames {
    pub(crate) object: Ident,
    pub(crate) define_property: Ident,
    pub(crate) exports: Ident,
    pub(crate) enumerable: Ident,
    pub(crate) configurable: Ident,
    pub(crate) get: Ident,
    pub(crate) import: Ident,
    pub(crate) imported_names: Ident,
    ghost object_is: { object ≡ codes "Object" },
    ghost define_property_is: { define_property ≡ codes "defineProperty" },
    ghost exports_is: { exports ≡ marked (codes "exports__") },
    ghost enumerable_is: { enumerable ≡ codes "enumerable" },
    ghost configurable_is: { configurable ≡ codes "configurable" },
    ghost get_is: { get ≡ codes "get" },
    ghost import_is: { import ≡ marked (codes "import__") },
    ghost imported_names_is: { imported_names ≡ codes "importedNames" },
}

impl RunnerNames {
    pub(crate) fn new(alloc: Global) -> Result<RunnerNames, AllocError> {
        Ok(RunnerNames {
            object: Ident::new(alloc, "Object")?,
            define_property: Ident::new(alloc, "defineProperty")?,
            exports: Ident::new(alloc, "__vite_ssr_exports__")?,
            enumerable: Ident::new(alloc, "enumerable")?,
            configurable: Ident::new(alloc, "configurable")?,
            get: Ident::new(alloc, "get")?,
            import: Ident::new(alloc, "__vite_ssr_import__")?,
            imported_names: Ident::new(alloc, "importedNames")?,
        })
    }
}
