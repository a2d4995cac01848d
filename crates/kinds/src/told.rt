//! What a declaration tells once it has been checked.
use tables::flags::SymbolFlags;
use tables::id::{Name, NodeId};
use tables::span::Span;

pub mod rows;

// Name, span and node stand here as in `Checked`: a struct of the three would lengthen each read of them, and spare one copying.
#[derive(Clone, Copy)]
pub struct Told {
    pub name: Name,
    pub span: Span,
    pub node: NodeId,
    pub includes: SymbolFlags,
    pub excludes: SymbolFlags,
}
