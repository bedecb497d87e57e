// Names and templates.
ghost use Rattle.std.specs.Prelude.{◌≡◌, ◌++◌, [], IfOk, OnOk};
ghost use Rattle.std.specs.List.{flat_map};
ghost use Rattle.std.specs.Option.{option_copied};
ghost use Rattle.sg_options.specs.Settings.{item_of};
ghost use Rattle.sg_lower.specs.Values.{name_of, template_of, text_if, value_name};

use sg_device::{Name, NoMemory};
use sg_macro::pair_name;
use sg_options::{item_of, last_argument_value, text_of};
use sg_parse_base::Spot;
use sg_parse_expr::Arg;
use sg_template::{Template, TemplateFault};
use sqlite_items::Items;
use std::alloc::{AllocError, Global};

/// The text of a value, empty where it is missing.
pub fn name_of(alloc: Global, value: Option<&Spot>) -> Result<Name, NoMemory>
    ensures { IfOk result (λ name. name ≡ name_of (option_copied value.entry)) }
{
    Name::new(alloc, text_of(value))
}

/// The name of the pair that the option `value` names.
pub fn value_name(alloc: Global, args: &[Arg]) -> Result<Name, NoMemory>
    ensures { IfOk result (λ name. name ≡ value_name args.now) }
{
    Name::new(
        alloc,
        pair_name(text_of(last_argument_value(&[b"value"], args))),
    )
}

/// The template of a text: one that has a fault is empty.
pub fn template_of(alloc: Global, text: &[u8]) -> Result<Template, NoMemory>
    ensures { IfOk result (λ template. template ≡ template_of text.now) }
{
    match Template::read(alloc, text) {
        Ok(template) => Ok(template),
        Err(TemplateFault::NoMemory) => Err(AllocError),
        Err(TemplateFault::OpenBrace) => empty_template(alloc),
        Err(TemplateFault::Function) => empty_template(alloc),
    }
}

#[tactic(auto, unfolding(sg_macro::specs::Reading::parts_of))]
fn empty_template(alloc: Global) -> Result<Template, NoMemory>
    ensures { IfOk result (λ template. template ≡ []) }
{
    match Template::read(alloc, b"") {
        Ok(template) => Ok(template),
        Err(_) => Err(AllocError),
    }
}

fn push_text(texts: &mut Items<Name>, arg: &Arg) -> Result<(), NoMemory>
    ensures { OnOk result (texts.new ≡ texts.old ++ text_if (item_of arg.now)) }
{
    match item_of(arg) {
        Some(spot) => {
            texts.push(spot.token.text.copy()?)?;
            Ok(())
        }
        None => Ok(()),
    }
}

/// The texts of the values among arguments.
pub fn texts_of(alloc: Global, args: &[Arg]) -> Result<Items<Name>, NoMemory>
    ensures { IfOk result (λ texts. texts ≡ flat_map (λ arg. text_if (item_of arg)) args.now) }
{
    let mut texts = Items::new(alloc);
    for arg in args {
        push_text(&mut texts, arg)?;
    }
    Ok(texts)
}
