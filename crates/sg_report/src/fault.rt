// What is wrong with a configuration.
ghost use Rattle.std.specs.Prelude.{◌≡◌, ◌++◌, OnOk, OnErr, IfOk};
ghost use Rattle.sg_report.specs.Fault.{kind_text_of, name_at, fault_text_of};

use sg_device::Name;
use sg_lex::{ConfigFault, ConfigKind};
use std::alloc::{AllocError, Global};

fn kind_text(kind: ConfigKind) -> &'static str
    ensures { result.now ≡ kind_text_of kind }
{
    match kind {
        ConfigKind::OpenString => "string not closed",
        ConfigKind::BadByte => "unexpected byte",
        ConfigKind::Version => "version not supported",
        ConfigKind::IncludeDepth => "includes nested too deep",
        ConfigKind::UnknownVariable => "unknown variable",
        ConfigKind::MissingArgument => "argument missing",
        ConfigKind::UnknownArgument => "unknown argument",
        ConfigKind::TooLong => "configuration too long",
        ConfigKind::Unexpected => "unexpected token",
        ConfigKind::Unsupported => "not supported",
        ConfigKind::BadNumber => "not a number",
        ConfigKind::DepthOver64 => "nested too deep",
        ConfigKind::OpenBrace => "template brace not closed",
        ConfigKind::Function => "template function",
        ConfigKind::UnknownName => "unknown name",
        ConfigKind::DuplicateName => "name defined twice",
        ConfigKind::MissingOption => "option missing",
        ConfigKind::BadValue => "value out of range",
        ConfigKind::HardMacro => "macro cannot be set",
        ConfigKind::BadPattern => "pattern not valid",
        ConfigKind::FilterCycle => "filter refers to itself",
        ConfigKind::SourcePlace => "source not allowed here",
        ConfigKind::Limit => "too many",
        ConfigKind::TooManyOffers => "too many offers",
        ConfigKind::PatternTooLarge => "pattern too large",
    }
}

/// The name of the file of that number, empty where there is none.
fn name_at(names: &[Name], file: u32) -> &[u8]
    ensures { result.now ≡ name_at names.now file }
{
    match names.get(file as usize) {
        Some(name) => name.bytes(),
        None => b"",
    }
}

fn fault_line(alloc: Global, fault: &ConfigFault, names: &[Name]) -> Result<Vec<u8>, AllocError>
    ensures { IfOk result (λ text. text.items ≡ fault_text_of fault.now names.now) }
{
    let mut text = name_at(names, fault.file).to_vec(alloc)?;
    let line = fault.line;
    let kind = kind_text(fault.kind);
    let rest = format!(in alloc; ":{line}: {kind}\n")?;
    text.extend_from_slice(rest.as_bytes())?;
    Ok(text)
}

/// Appends the line that tells what is wrong with a configuration, and where: the file's name, the
/// line's number and what it is. A file that has no name has an empty one. Without memory `out` stays
/// as it was.
pub fn fault_text(
    alloc: Global,
    fault: &ConfigFault,
    names: &[Name],
    out: &mut Vec<u8>,
) -> Result<(), AllocError>
    ensures ok { OnOk result (out.new.items ≡ out.old.items ++ fault_text_of fault.now names.now) }
    ensures err { OnErr result (out.new.items ≡ out.old.items) }
{
    let text = fault_line(alloc, fault, names)?;
    out.extend_from_slice(&text)
}
