// The parts of templates' texts, and names.
use sg_macro::{DatePart, Macro, StampKind, macro_of, pair_name, read_parts};
use std::alloc::Global;
use std::test::Fail;

// Texts, and how many parts they have or what is wrong with them.
const READINGS: &str = "\
a$b ${C:-d}e => 5
 => 0
$$ => 1
$$$ => 2
${} => 1
$a.$( => template function
$( ${A => template function
${A $( => template brace not closed
${A:-} $ {b} ${ => template brace not closed";

fn reading(alloc: Global, text: &str) -> Result<String, Fail> {
    match read_parts(alloc, text.as_bytes()) {
        Ok(parts) => Ok(format!(in alloc; "{}", parts.len())?),
        Err(fault) => Ok(format!(in alloc; "{fault}")?),
    }
}

#[test]
fn parts(rt: HostRuntime) -> Result<(), Fail> {
    for row in READINGS.lines() {
        let (text, shown) = row.split_once(" => ").ok_or("no reading")?;
        let found = reading(rt.alloc(), text)?;
        assert_eq!(rt; found.as_str(), shown, "{row}");
    }
    assert_eq!(rt; pair_name(b"MSG"), b"MESSAGE".as_slice());
    assert_eq!(rt;
        macro_of(b"R_MIN"),
        Some(Macro::OfStamp(StampKind::Received, DatePart::Minute))
    );
    Ok(())
}
