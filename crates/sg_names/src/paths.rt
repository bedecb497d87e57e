// All that a configuration says of names.
ghost use Rattle.std.specs.Prelude.{◌≡◌, ◌++◌, IfOk, OnOk};
ghost use Rattle.sg_names.specs.Parts.{reference_parts};
ghost use Rattle.sg_names.specs.Paths.{kind_of, leaf_parts, parts_of};

use crate::kind::NameKind;
use crate::names::Names;
use crate::part::{NameUse, named_part, push_object};
use crate::terms::terms_of;
use sg_parse_base::Spot;
use sg_parse_expr::RawExpr;
use sg_parse_obj::Object;
use sg_parse_path::{RawRef, ReferenceKind};
use sg_parse_text::Statement;
use sg_visit::{Visit, visit_statements};
use sqlite_items::Items;
use std::alloc::{AllocError, Global};

/// The kind of the statements that an element of this kind names.
fn kind_of(kind: ReferenceKind) -> NameKind
    ensures { result ≡ kind_of kind }
{
    match kind {
        ReferenceKind::Source => NameKind::Source,
        ReferenceKind::Destination => NameKind::Destination,
        ReferenceKind::Filter => NameKind::Filter,
        ReferenceKind::Rewrite => NameKind::Rewrite,
        ReferenceKind::Parser => NameKind::Parser,
    }
}

fn push_reference(
    alloc: Global,
    names: &Names,
    kind: NameKind,
    reference: &RawRef,
    found: &mut Items<NameUse>,
) -> Result<(), AllocError>
    ensures { OnOk result (found.new ≡ found.old ++ reference_parts names.now kind reference.now) }
{
    match reference {
        RawRef::Named(spot) => {
            found.push(named_part(names, kind, spot))?;
            Ok(())
        }
        RawRef::Inline(object) => {
            push_object(alloc, names, object, found)?;
            Ok(())
        }
    }
}

/// Collects the parts, with the places of these names.
#[derive(Drop)]
struct Collector<'a> {
    alloc: Global,
    names: &'a Names,
}

impl<'a> Visit for Collector<'a> {
    type State = Items<NameUse>;

    type Error = AllocError;

    ghost step = { λ collector old leaf new.
        new ≡ old ++ leaf_parts collector.names.now leaf };

    fn object(&self, found: &mut Items<NameUse>, object: &Object) -> Result<(), AllocError> {
        push_object(self.alloc, self.names, object, found)?;
        Ok(())
    }

    fn source(&self, _found: &mut Items<NameUse>, _word: &Spot) -> Result<(), AllocError> {
        Ok(())
    }

    fn reference(
        &self,
        found: &mut Items<NameUse>,
        kind: ReferenceKind,
        reference: &RawRef,
    ) -> Result<(), AllocError> {
        push_reference(self.alloc, self.names, kind_of(kind), reference, found)?;
        Ok(())
    }

    fn test(&self, found: &mut Items<NameUse>, test: &RawExpr) -> Result<(), AllocError> {
        found.push(NameUse::Expression(terms_of(self.alloc, self.names, test)?))?;
        Ok(())
    }

    fn flags(&self, _found: &mut Items<NameUse>, _flags: &[Spot]) -> Result<(), AllocError> {
        Ok(())
    }
}

/// All parts of a configuration.
pub fn parts_of(
    alloc: Global,
    names: &Names,
    statements: &[Statement],
) -> Result<Items<NameUse>, AllocError>
    ensures { IfOk result (λ parts. parts ≡ parts_of names.now statements.now) }
{
    let mut found = Items::new(alloc);
    visit_statements(&Collector { alloc, names }, &mut found, statements)?;
    Ok(found)
}
