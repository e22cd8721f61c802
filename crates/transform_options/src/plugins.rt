/// Transforms that stand outside of the editions. No call reads them.
#[derive(Debug, Default, Clone, Copy)]
pub struct PluginsOptions {
    pub styled_components: bool,
    pub tagged_template_transform: bool,
}
