// The kinds of statements that have names.
ghost use Rattle.std.specs.Prelude.{◌≡◌, option_copied};
ghost use Rattle.sg_names.specs.Kinds.{object_name, name_of};

use sg_parse_base::Spot;
use sg_parse_obj::Object;
use sg_parse_text::Statement;

/// The kind of a statement that has a name. A name may stand for one of each kind.
#[derive(Clone, Copy, Drop)]
pub enum NameKind {
    Source,
    Destination,
    Filter,
    Rewrite,
    Parser,
    Template,
}

fn object_name(object: &Object, kind: NameKind) -> Option<&Spot>
    ensures { option_copied result ≡ object_name kind object.now }
{
    match object {
        Object::Source { name, .. } => match kind {
            NameKind::Source => Some(name),
            _ => None,
        },
        Object::Destination { name, .. } => match kind {
            NameKind::Destination => Some(name),
            _ => None,
        },
        Object::Filter { name, .. } => match kind {
            NameKind::Filter => Some(name),
            _ => None,
        },
        Object::Rewrite { name, .. } => match kind {
            NameKind::Rewrite => Some(name),
            _ => None,
        },
        Object::Parser { name, .. } => match kind {
            NameKind::Parser => Some(name),
            _ => None,
        },
        Object::Template { name, .. } => match kind {
            NameKind::Template => Some(name),
            _ => None,
        },
        Object::Options(_) => None,
    }
}

/// The name of a statement of this kind.
pub fn name_of(statement: &Statement, kind: NameKind) -> Option<&Spot>
    ensures { option_copied result ≡ name_of kind statement.now }
{
    match statement {
        Statement::Object(object) => object_name(object, kind),
        Statement::Log(_) => None,
    }
}
