ghost use Rattle.std.specs.Prelude.{◌≡◌};
ghost use Rattle.transform_targets.specs.Features as spec;

/// What a version is of: an engine that runs JavaScript, or `Es`, the editions of ECMAScript.
#[derive(Debug, Clone, Copy)]
pub enum Engine {
    Chrome,
    Deno,
    Edge,
    Firefox,
    Hermes,
    Ie,
    Ios,
    Node,
    Opera,
    Rhino,
    Safari,
    Es,
}

impl Engine {
    pub(crate) fn place(self) -> usize
        ensures { result ≡ spec.engine_place self }
    {
        self as usize
    }
}
