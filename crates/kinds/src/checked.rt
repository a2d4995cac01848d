//! A declaration whose kind, modifiers and span have been checked.
use crate::kind::Kind;
use crate::modifiers::Modifiers;
use tables::id::{Name, NodeId};
use tables::span::Span;

mod tells;

#[derive(Clone, Copy)]
pub struct Checked {
    pub kind: Kind,
    pub modifiers: Modifiers,
    pub name: Name,
    pub span: Span,
    pub node: NodeId,
}
