//! One line of an operation list.
ghost use Rattle.std.specs.Prelude.{◌≡◌};
ghost use Rattle.zone_text.specs.Lines.{operation_of, line_meaning};
ghost use Rattle.zone_text.specs.declared.verb.Verb.TheVariants.{Set, Enter, Leave, Bind, Refer, Resolve, ResolveAll};

use crate::operation::{LineError, Operation};
use crate::separator::{Separator, cut};
use crate::verb::Verb;
use crate::words::Words;
use model::call::{Call, Declaration, NewReference, NewScope};
use tables::flags::{ReferenceFlags, ScopeFlags};
use tables::id::{Name, NodeId, ScopeId};

// One function for each operation, as the definitions have it: those with as many numbers share nothing but that.

fn setting(line: &mut Words) -> Result<Operation, LineError>
    ensures { result ≡ operation_of Set line.old }
{
    let bits = line.next_number()?;
    line.end()?;
    Ok(Operation::Setting(bits))
}

fn enter_scope(line: &mut Words) -> Result<Operation, LineError>
    ensures { result ≡ operation_of Enter line.old }
{
    let scope = NewScope {
        flags: ScopeFlags(line.next_number()?),
        node: NodeId(line.next_number()?),
    };
    line.end()?;
    Ok(Operation::Run(Call::EnterScope(scope)))
}

fn leave_scope(line: &mut Words) -> Result<Operation, LineError>
    ensures { result ≡ operation_of Leave line.old }
{
    line.end()?;
    Ok(Operation::Run(Call::LeaveScope))
}

fn bind(line: &mut Words) -> Result<Operation, LineError>
    ensures { result ≡ operation_of Bind line.old }
{
    let declaration = Declaration {
        kind: line.next_number()?,
        modifiers: line.next_number()?,
        name: Name(line.next_number()?),
        start: line.next_number()?,
        end: line.next_number()?,
        node: NodeId(line.next_number()?),
    };
    line.end()?;
    Ok(Operation::Run(Call::Bind(declaration)))
}

fn reference(line: &mut Words) -> Result<Operation, LineError>
    ensures { result ≡ operation_of Refer line.old }
{
    let reference = NewReference {
        name: Name(line.next_number()?),
        scope: ScopeId(line.next_number()?),
        flags: ReferenceFlags(line.next_number()?),
        node: NodeId(line.next_number()?),
    };
    line.end()?;
    Ok(Operation::Run(Call::DeclareReference(reference)))
}

fn resolve(line: &mut Words) -> Result<Operation, LineError>
    ensures { result ≡ operation_of Resolve line.old }
{
    let start = line.next_number()?;
    line.end()?;
    Ok(Operation::Run(Call::ResolveReferences(start)))
}

fn resolve_all(line: &mut Words) -> Result<Operation, LineError>
    ensures { result ≡ operation_of ResolveAll line.old }
{
    line.end()?;
    Ok(Operation::Run(Call::ResolveAllReferences))
}

/// The operation of a verb, from the words behind it.
// A match and no table: that would hold seven function pointers and their contracts.
fn operation(verb: Verb, line: &mut Words) -> Result<Operation, LineError>
    ensures { result ≡ operation_of verb line.old }
{
    match verb {
        Verb::Set => setting(line),
        Verb::Enter => enter_scope(line),
        Verb::Leave => leave_scope(line),
        Verb::Bind => bind(line),
        Verb::Refer => reference(line),
        Verb::Resolve => resolve(line),
        Verb::ResolveAll => resolve_all(line),
    }
}

/// What a line says; none where it is blank or has a comment alone.
pub fn parse_line(line: &[u8]) -> Result<Option<Operation>, LineError>
    ensures { result ≡ line_meaning line.now }
{
    let (text, _) = cut(line, Separator::Hash);
    let mut words = Words { rest: text };
    let Some(word) = words.next() else {
        return Ok(None);
    };
    let verb = Verb::from_word(word).ok_or(LineError::UnknownWord)?;
    Ok(Some(operation(verb, &mut words)?))
}
