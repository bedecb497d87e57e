// The shapes of frames.
ghost use Rattle.std.specs.Prelude.{◌≡◌, IfOk, Ok, is_ok, true};
ghost use Rattle.sg_macro.specs.Reading.{parts_of};
ghost use Rattle.sg_outfmt.specs.Shape.{IsDefault, behind_path};

use sg_template::{Template, TemplateFault};
use std::alloc::{AllocError, Global};

/// What a frame is made of.
pub enum Shape {
    /// A template's text.
    Text(Template),
    /// A line of RFC 5424, behind its length in octets and a space (RFC 6587, 3.4.1).
    Counted5424,
    /// The text of a template behind the path of the file that it goes to, which another template
    /// gives. `unpacked` tells them apart.
    ByPath { path: Template, text: Template },
}

impl Drop for Shape {
    fn drop(self) {
        match self {
            Shape::Text(_0) => {}
            Shape::Counted5424 => {}
            Shape::ByPath {
                path: _path,
                text: _text,
            } => {}
        }
    }
}

impl Shape {
    /// The text of a template behind that path; another shape stays as it is.
    pub fn behind_path(self, path: Template) -> Shape
        ensures { result ≡ behind_path path self }
    {
        match self {
            Shape::Text(text) => Shape::ByPath { path, text },
            Shape::Counted5424 => Shape::Counted5424,
            Shape::ByPath { path: other, text } => Shape::ByPath { path: other, text },
        }
    }
}

/// The kinds of destinations.
#[derive(Clone, Copy, PartialEq, Eq, Drop)]
pub enum DriverKind {
    File,
    Network,
    Syslog,
}

const FILE_TEXT: &[u8] = b"${STAMP} ${HOST} ${MSGHDR}${MSG}\n";

const NETWORK_TEXT: &[u8] = b"<${PRI}>${STAMP} ${HOST} ${MSGHDR}${MSG}\n";

/// The shape of a destination without a template.
#[tactic(auto, unfolding(sg_macro::specs::Reading::parts_of, sg_macro::specs::Macros::macro_of, sg_macro::specs::Macros::macros, sg_macro::specs::Macros::pair_name))]
pub fn default_shape(alloc: Global, driver: DriverKind) -> Result<Shape, AllocError>
    ensures { IfOk result (IsDefault driver) }
{
    match driver {
        DriverKind::File => Ok(Shape::Text(sound_template(alloc, FILE_TEXT)?)),
        DriverKind::Network => Ok(Shape::Text(sound_template(alloc, NETWORK_TEXT)?)),
        DriverKind::Syslog => Ok(Shape::Counted5424),
    }
}

// The template of a text without a fault.
fn sound_template(alloc: Global, text: &[u8]) -> Result<Template, AllocError>
    requires { is_ok (parts_of text.now) ≡ true }
    ensures { IfOk result (λ template. parts_of text.now ≡ Ok template) }
{
    match Template::read(alloc, text) {
        Ok(template) => Ok(template),
        Err(TemplateFault::NoMemory) => Err(AllocError),
        Err(TemplateFault::OpenBrace | TemplateFault::Function) => unreachable!(),
    }
}

// A shape may be handed to another thread.
fn is_send<T: Send>() {}

fn shape_is_send() {
    is_send::<Shape>();
}
