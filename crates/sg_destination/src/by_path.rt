// Destinations whose files are named by their messages.
ghost use Rattle.std.specs.Prelude.{◌≡◌, IfOk};
ghost use Rattle.sg_destination.specs.ByPath as spec;

use sg_device::NoMemory;
use sg_driver::{driver_kind, name_of};
use sg_outfmt::{DriverKind, Shape};
use sg_parse_expr::Call;
use sg_template::{Template, TemplateFault};
use std::alloc::{AllocError, Global};

fn has_dollar(text: &[u8]) -> bool
    ensures { result ≡ spec.has_dollar text.now }
{
    for byte in text {
        if *byte == b'$' {
            return true;
        }
    }
    false
}

/// Whether the path of a file is a template.
pub(crate) fn is_by_path(call: &Call) -> bool
    ensures { result ≡ spec.is_by_path call.now }
{
    match driver_kind(call) {
        DriverKind::File => has_dollar(name_of(call)),
        DriverKind::Network => false,
        DriverKind::Syslog => false,
    }
}

// The template of the path, where it is one.
fn path_of(alloc: Global, call: &Call) -> Result<Option<Template>, NoMemory>
    ensures { IfOk result (λ path. path ≡ spec.path_parts call.now) }
{
    if !is_by_path(call) {
        return Ok(None);
    }
    match Template::read(alloc, name_of(call)) {
        Ok(path) => Ok(Some(path)),
        Err(TemplateFault::OpenBrace | TemplateFault::Function) => Ok(None),
        Err(TemplateFault::NoMemory) => Err(AllocError),
    }
}

/// The shape of the frames, each behind its path where a template gives that.
pub(crate) fn with_path(alloc: Global, call: &Call, text: Shape) -> Result<Shape, NoMemory>
    ensures { IfOk result (λ shape. shape ≡ spec.with_path (spec.path_parts call.now) text) }
{
    match path_of(alloc, call)? {
        Some(path) => Ok(text.behind_path(path)),
        None => Ok(text),
    }
}
