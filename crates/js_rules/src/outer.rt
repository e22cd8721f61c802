use crate::view::View;

/// The nodes round a place that a rule has to know, innermost first.
#[derive(Drop)]
pub struct Outer<'a, V> {
    pub view: V,
    pub outer: Option<&'a Outer<'a, V>>,
}
