ghost use Rattle.module_model.specs.Shape.{import_name};
ghost use Rattle.std.specs.Prelude.{◌≡◌};

use small_tree::Ident;

/// What an imported name stands for: a name that a request exports, and the request's own name.
#[derive(Drop)]
pub(crate) struct Import {
    pub(crate) request: usize,
    pub(crate) object: Ident,
    pub(crate) name: Ident,
    ghost named: { object ≡ import_name request },
}
