/// How a name stands at a place: as what a reference is used, or as what a name is bound.
#[derive(Clone, Copy, Debug, PartialEq, Eq)]
pub enum Stand {
    /// Read, or bound in the scope that it stands in.
    Plain,
    /// Written alone.
    Write,
    /// Read and written.
    Update,
    /// Bound by a `var`, in the nearest function, static block or module.
    OfVar,
    /// The own name of a function, covered by a parameter or by a name of the body.
    Covered,
}
