//! Views of imports and exports.

ghost use Rattle.std.specs.Prelude.{◌≡◌, MatchOption};
ghost use Rattle.js_term.specs.declared.kind.Kind.TheVariants as Kind;
ghost use Rattle.node_views.specs.Views.{IsOf, items_at, part_at};

use crate::parts::{one_part, two_parts};
use js_tree::{Kind, Node};

/// `import { specifiers } from 'source';`
#[derive(Clone, Copy)]
pub struct ImportDeclaration<'a> {
    /// Empty in `import 'source';` too.
    pub specifiers: &'a [Node],
    pub source: &'a Node,
}

impl<'a> ImportDeclaration<'a> {
    /// The node as an `ImportDeclaration`, if it is one.
    pub fn of(node: &'a Node) -> Option<ImportDeclaration<'a>>
        ensures { MatchOption result (IsOf Kind.ImportDeclaration 2 node.now → ⊥) (λ v. IsOf Kind.ImportDeclaration 2 node.now × ((v.specifiers.now ≡ items_at 0 node.now) × (v.source.now ≡ part_at 1 node.now))) }
    {
        let (specifiers, source) = two_parts(node, Kind::ImportDeclaration)?;
        Some(ImportDeclaration {
            specifiers: specifiers.kids(),
            source,
        })
    }
}

/// `imported as local`, which is imported.
#[derive(Clone, Copy)]
pub struct ImportSpecifier<'a> {
    pub imported: &'a Node,
    pub local: &'a Node,
}

impl<'a> ImportSpecifier<'a> {
    /// The node as an `ImportSpecifier`, if it is one.
    pub fn of(node: &'a Node) -> Option<ImportSpecifier<'a>>
        ensures { MatchOption result (IsOf Kind.ImportSpecifier 2 node.now → ⊥) (λ v. IsOf Kind.ImportSpecifier 2 node.now × ((v.imported.now ≡ part_at 0 node.now) × (v.local.now ≡ part_at 1 node.now))) }
    {
        let (imported, local) = two_parts(node, Kind::ImportSpecifier)?;
        Some(ImportSpecifier { imported, local })
    }
}

/// `export { specifiers };`
#[derive(Clone, Copy)]
pub struct ExportNamedDeclaration<'a> {
    pub specifiers: &'a [Node],
}

impl<'a> ExportNamedDeclaration<'a> {
    /// The node as an `ExportNamedDeclaration`, if it is one.
    pub fn of(node: &'a Node) -> Option<ExportNamedDeclaration<'a>>
        ensures { MatchOption result (IsOf Kind.ExportNamedDeclaration 1 node.now → ⊥) (λ v. IsOf Kind.ExportNamedDeclaration 1 node.now × (v.specifiers.now ≡ items_at 0 node.now)) }
    {
        let specifiers = one_part(node, Kind::ExportNamedDeclaration)?;
        Some(ExportNamedDeclaration {
            specifiers: specifiers.kids(),
        })
    }
}

/// `export { specifiers } from 'source';`
#[derive(Clone, Copy)]
pub struct ExportFromDeclaration<'a> {
    pub specifiers: &'a [Node],
    pub source: &'a Node,
}

impl<'a> ExportFromDeclaration<'a> {
    /// The node as an `ExportFromDeclaration`, if it is one.
    pub fn of(node: &'a Node) -> Option<ExportFromDeclaration<'a>>
        ensures { MatchOption result (IsOf Kind.ExportFromDeclaration 2 node.now → ⊥) (λ v. IsOf Kind.ExportFromDeclaration 2 node.now × ((v.specifiers.now ≡ items_at 0 node.now) × (v.source.now ≡ part_at 1 node.now))) }
    {
        let (specifiers, source) = two_parts(node, Kind::ExportFromDeclaration)?;
        Some(ExportFromDeclaration {
            specifiers: specifiers.kids(),
            source,
        })
    }
}

/// `export * as exported from 'source';`
#[derive(Clone, Copy)]
pub struct ExportAllDeclaration<'a> {
    /// Absent where there is none.
    pub exported: &'a Node,
    pub source: &'a Node,
}

impl<'a> ExportAllDeclaration<'a> {
    /// The node as an `ExportAllDeclaration`, if it is one.
    pub fn of(node: &'a Node) -> Option<ExportAllDeclaration<'a>>
        ensures { MatchOption result (IsOf Kind.ExportAllDeclaration 2 node.now → ⊥) (λ v. IsOf Kind.ExportAllDeclaration 2 node.now × ((v.exported.now ≡ part_at 0 node.now) × (v.source.now ≡ part_at 1 node.now))) }
    {
        let (exported, source) = two_parts(node, Kind::ExportAllDeclaration)?;
        Some(ExportAllDeclaration { exported, source })
    }
}

/// `local as exported`, which is exported.
#[derive(Clone, Copy)]
pub struct ExportSpecifier<'a> {
    pub local: &'a Node,
    pub exported: &'a Node,
}

impl<'a> ExportSpecifier<'a> {
    /// The node as an `ExportSpecifier`, if it is one.
    pub fn of(node: &'a Node) -> Option<ExportSpecifier<'a>>
        ensures { MatchOption result (IsOf Kind.ExportSpecifier 2 node.now → ⊥) (λ v. IsOf Kind.ExportSpecifier 2 node.now × ((v.local.now ≡ part_at 0 node.now) × (v.exported.now ≡ part_at 1 node.now))) }
    {
        let (local, exported) = two_parts(node, Kind::ExportSpecifier)?;
        Some(ExportSpecifier { local, exported })
    }
}

/// `export declaration`.
#[derive(Clone, Copy)]
pub struct ExportDeclaration<'a> {
    pub declaration: &'a Node,
}

impl<'a> ExportDeclaration<'a> {
    /// The node as an `ExportDeclaration`, if it is one.
    pub fn of(node: &'a Node) -> Option<ExportDeclaration<'a>>
        ensures { MatchOption result (IsOf Kind.ExportDeclaration 1 node.now → ⊥) (λ v. IsOf Kind.ExportDeclaration 1 node.now × (v.declaration.now ≡ part_at 0 node.now)) }
    {
        let declaration = one_part(node, Kind::ExportDeclaration)?;
        Some(ExportDeclaration { declaration })
    }
}

/// `export default declaration`.
#[derive(Clone, Copy)]
pub struct ExportDefaultDeclaration<'a> {
    pub declaration: &'a Node,
}

impl<'a> ExportDefaultDeclaration<'a> {
    /// The node as an `ExportDefaultDeclaration`, if it is one.
    pub fn of(node: &'a Node) -> Option<ExportDefaultDeclaration<'a>>
        ensures { MatchOption result (IsOf Kind.ExportDefaultDeclaration 1 node.now → ⊥) (λ v. IsOf Kind.ExportDefaultDeclaration 1 node.now × (v.declaration.now ≡ part_at 0 node.now)) }
    {
        let declaration = one_part(node, Kind::ExportDefaultDeclaration)?;
        Some(ExportDefaultDeclaration { declaration })
    }
}
