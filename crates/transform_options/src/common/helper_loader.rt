/// Where the helpers that lowered code calls come from.
#[derive(Debug, Default, Clone, Copy)]
pub enum HelperLoaderMode {
    #[default]
    Runtime,
    External,
    Inline,
}
