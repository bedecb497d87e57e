// The template of a destination.
ghost use Rattle.std.specs.Prelude.{◌≡◌, List, ℕ, [], ◌∷◌, Option, IfOk};
ghost use Rattle.std.specs.Option.{option_copied};
ghost use Rattle.sg_macro.specs.Reading.{parts_of};
ghost use Rattle.sg_parse_expr.specs.Classes.{template_verdict};
ghost use Rattle.sg_fault.specs.Faults.{least};
ghost use Rattle.sg_options.specs.Settings.{calls_of};
ghost use Rattle.sg_destination.specs.Templates as spec;

use sg_device::NoMemory;
use sg_fault::{Placed, earlier};
use sg_lex::ConfigKind;
use sg_macro::read_parts;
use sg_options::{is_called, nested_of, value_of};
use sg_outfmt::{DriverKind, Shape, default_shape};
use sg_parse_base::{Spot, is_string, line_of};
use sg_parse_expr::{Arg, Call};
use sg_template::{Template, TemplateFault};
use std::alloc::{AllocError, Global};

/// The templates that statements define.
pub trait Templates {
    ghost texts: { Self → List ℕ → Option (List ℕ) };

    /// The text of the template of that name, none where no statement defines one.
    fn text(&self, name: &[u8]) -> Option<&[u8]>
        ensures { option_copied result ≡ texts self.now name.now };
}

fn verdict_of(alloc: Global, text: &[u8]) -> Result<Option<ConfigKind>, NoMemory>
    ensures { IfOk result (λ verdict. verdict ≡ template_verdict (parts_of text.now)) }
{
    match read_parts(alloc, text) {
        Ok(_) => Ok(None),
        Err(TemplateFault::OpenBrace) => Ok(Some(ConfigKind::OpenBrace)),
        Err(TemplateFault::Function) => Ok(Some(ConfigKind::Function)),
        Err(TemplateFault::NoMemory) => Err(AllocError),
    }
}

fn at_spot(kind: Option<ConfigKind>, spot: &Spot) -> Option<Placed>
    ensures { result ≡ least (spec.at_spot kind spot.now) }
{
    match kind {
        Some(kind) => Some(Placed {
            kind,
            line: line_of(&spot.token, spot.at),
        }),
        None => None,
    }
}

// What is wrong with a value that names no template.
fn own_fault(alloc: Global, spot: &Spot) -> Result<Option<Placed>, NoMemory>
    ensures { IfOk result (λ fault. fault ≡ least (spec.own_faults spot.now)) }
{
    if !is_string(&spot.token) {
        return Ok(at_spot(Some(ConfigKind::UnknownName), spot));
    }
    let verdict = verdict_of(alloc, spot.token.text.bytes())?;
    Ok(at_spot(verdict, spot))
}

fn reference_fault<T: Templates>(
    alloc: Global,
    templates: &T,
    value: Option<&Spot>,
) -> Result<Option<Placed>, NoMemory>
    ensures { IfOk result (λ fault. fault
        ≡ least (spec.reference_faults (T.texts templates.now) (option_copied value.entry))) }
{
    let Some(spot) = value else {
        return Ok(None);
    };
    match templates.text(spot.token.text.bytes()) {
        Some(_) => Ok(None),
        None => own_fault(alloc, spot),
    }
}

fn option_fault<T: Templates>(
    alloc: Global,
    templates: &T,
    call: &Call,
) -> Result<Option<Placed>, NoMemory>
    ensures { IfOk result
        (λ fault. fault ≡ least (spec.template_option_faults (T.texts templates.now) call.now)) }
{
    if is_called(&[b"template"], call) {
        Ok(reference_fault(alloc, templates, value_of(call))?)
    } else {
        Ok(None)
    }
}

#[tactic(auto, using(sg_fault::proofs::Least::least_append, sg_fault::proofs::Least::earlier_none))]
fn argument_fault<T: Templates>(
    alloc: Global,
    templates: &T,
    arg: &Arg,
) -> Result<Option<Placed>, NoMemory>
    ensures { IfOk result (λ fault. fault
        ≡ least (spec.template_faults (T.texts templates.now) (calls_of (arg.now ∷ [])))) }
{
    match nested_of(arg) {
        Some(call) => Ok(option_fault(alloc, templates, call)?),
        None => Ok(None),
    }
}

/// The first fault of the options `template` among the arguments of a destination: `UnknownName`,
/// `OpenBrace` and `Function` at a value.
pub(crate) fn template_fault<T: Templates>(
    alloc: Global,
    templates: &T,
    args: &[Arg],
) -> Result<Option<Placed>, NoMemory>
    ensures { IfOk result (λ fault. fault
        ≡ least (spec.template_faults (T.texts templates.now) (calls_of args.now))) }
{
    let mut found = None;
    for arg in args {
        let fault = argument_fault(alloc, templates, arg)?;
        found = earlier(found, fault);
    }
    Ok(found)
}

// The shape of that text, and the driver's own one where the text has a fault.
fn shape_of_text(alloc: Global, kind: DriverKind, text: &[u8]) -> Result<Shape, NoMemory>
    ensures { IfOk result (spec.IsTextShape kind (parts_of text.now)) }
{
    match Template::read(alloc, text) {
        Ok(template) => Ok(Shape::Text(template)),
        Err(TemplateFault::OpenBrace) => default_shape(alloc, kind),
        Err(TemplateFault::Function) => default_shape(alloc, kind),
        Err(TemplateFault::NoMemory) => Err(AllocError),
    }
}

/// The shape of a destination's frames, by the value of its option `template`.
pub(crate) fn shape_of<T: Templates>(
    alloc: Global,
    templates: &T,
    kind: DriverKind,
    value: Option<&Spot>,
) -> Result<Shape, NoMemory>
    ensures { IfOk result (spec.HasShape (T.texts templates.now) kind (option_copied value.entry)) }
{
    let Some(spot) = value else {
        return default_shape(alloc, kind);
    };
    let text = match templates.text(spot.token.text.bytes()) {
        Some(text) => text,
        None => spot.token.text.bytes(),
    };
    shape_of_text(alloc, kind, text)
}
