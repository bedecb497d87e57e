// How bytes are shown.
ghost use Rattle.std.specs.Prelude.{◌≡◌, ◌++◌, map, OnOk};
ghost use Rattle.std.specs.List.{list_all};
ghost use Rattle.sg_hint.specs.Shown.{is_printable, shown_byte};

use sg_device::NoMemory;

fn is_printable(byte: u8) -> bool
    ensures { result ≡ is_printable byte }
{
    byte >= 32 && byte <= 126
}

/// Whether a name can be shown as it is.
pub fn is_shown(name: &[u8]) -> bool
    ensures { result ≡ list_all is_printable name.now }
{
    name.iter().all(|byte| is_printable(*byte))
}

fn shown_byte(byte: u8) -> u8
    ensures { result ≡ shown_byte byte }
{
    if byte == b'\t' {
        return b' ';
    }
    if is_printable(byte) { byte } else { b'.' }
}

/// Appends bytes as they are shown: printable ASCII as it is, a tab as a blank, others as `.`.
pub fn append_shown(text: &[u8], out: &mut Vec<u8>) -> Result<(), NoMemory>
    ensures { OnOk result (out.new.items ≡ out.old.items ++ map shown_byte text.now) }
{
    for byte in text {
        out.push(shown_byte(*byte))?;
    }
    Ok(())
}
