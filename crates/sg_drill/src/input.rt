// The records of a drill.
ghost use Rattle.std.specs.Prelude.{◌≡◌, ◌≤◌, ◌<◌, ◌++◌, IfOk, OnOk};
ghost use Rattle.sg_drill.specs.Input.{record_line, drill_text};

use std::alloc::{AllocError, Global};

// Appends the record of that number.
fn append_record(alloc: Global, number: u64, text: &mut Vec<u8>) -> Result<(), AllocError>
    requires { number < 100000 }
    ensures { OnOk result (text.new.items ≡ text.old.items ++ record_line number) }
{
    let priority = 7 * number % 192;
    let host = number % 8;
    let program = number % 5;
    let line = format!(in alloc;
        "<{priority}>Feb  5 17:32:18 host{host} prog{program}: record {number}\n"
    )?;
    text.extend_from_slice(line.as_bytes())?;
    Ok(())
}

/// The lines of so many records, at most 100,000: record k has the priority 7k mod 192, comes from `host` and k mod 8
/// and `prog` and k mod 5, and ends in its number.
pub fn drill_input(alloc: Global, records: u64) -> Result<Vec<u8>, AllocError>
    requires { records ≤ 100000 }
    ensures { IfOk result (λ text. text.items ≡ drill_text records) }
{
    let mut text = Vec::new(alloc);
    for number in 0..records {
        append_record(alloc, number, &mut text)?;
    }
    Ok(text)
}
