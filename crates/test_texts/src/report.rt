ghost use Rattle.std.specs.Prelude.{◌≡◌, length, IfOk};

use sg_device::Name;
use sg_lex::{ConfigFault, ConfigKind};
use sg_list::Seq;
use sg_machine::{DestTally, SourceTally, Tally};
use sg_report::{Shown, fault_text, tally_text};
use std::alloc::{AllocError, Global};
use std::test::Fail;

fn shown(alloc: Global, sinks: &[u32], status: u8) -> Result<Shown, AllocError>
    ensures { IfOk result (λ shown. (length shown.drivers ≡ 3) × (length shown.files ≡ 3)
        × (length shown.bad_frames ≡ 3)) }
{
    Ok(Shown {
        drivers: Seq::new(Vec::from_slice(alloc, &[0, 1, 1])?),
        files: Seq::new(Vec::from_slice(alloc, &[true, false, false])?),
        bad_frames: Seq::new(Vec::from_slice(alloc, &[0, 2, u64::MAX])?),
        held: Seq::new(Vec::from_slice(alloc, &[(0, 12), (1, 0)])?),
        sinks: Seq::new(Vec::from_slice(alloc, sinks)?),
        stores: Seq::new(Vec::from_slice(alloc, &[4, 5])?),
        inlets: Seq::empty(alloc),
        status,
    })
}

fn tally(alloc: Global) -> Result<Tally, AllocError>
    ensures { IfOk result (λ tally. length tally.sources ≡ 3) }
{
    let file = SourceTally {
        records: 100,
        mark: 12,
        stored: Some(8),
    };
    let slot = SourceTally {
        records: 3,
        mark: 0,
        stored: None,
    };
    let dest = DestTally {
        taken: 1,
        dropped_full: 2,
        dropped_disk: 3,
        left: 4,
    };
    Ok(Tally {
        sources: Seq::new(Vec::from_slice(alloc, &[file, slot, slot])?),
        dests: Seq::new(Vec::from_slice(alloc, &[dest, dest])?),
    })
}

const REPORT: &[u8] = b"before\nsource 0 records 100 bad-frames 0 position 8\n\
source 1 records 6 bad-frames 18446744073709551615\n\
destination 0 taken 1 dropped-full 2 dropped-disk 3 left 4\n\
destination 1 taken 1 dropped-full 2 dropped-disk 3 left 4\n\
buffer 0 held 12\n\
fault sink 0\nfault sink 7\nfault store 4\nfault store 5\nstatus 6\n";

#[test]
fn reports(rt: HostRuntime) -> Result<(), Fail> {
    let alloc = rt.alloc();
    let mut out = b"before\n".to_vec(alloc)?;
    tally_text(alloc, &tally(alloc)?, &shown(alloc, &[0, 7], 6)?, &mut out)?;
    assert_eq!(rt; out.as_slice(), REPORT);
    Ok(())
}

fn said(alloc: Global, kind: ConfigKind) -> Result<Vec<u8>, AllocError> {
    let mut names = Vec::new(alloc);
    names.push(Name::new(alloc, b"c")?).map_err(|_| AllocError)?;
    names
        .push(Name::new(alloc, b"scl.conf")?)
        .map_err(|_| AllocError)?;
    let fault = ConfigFault {
        kind,
        file: 1,
        line: 12,
    };
    let mut out = Vec::new(alloc);
    fault_text(alloc, &fault, &names, &mut out)?;
    Ok(out)
}

#[test]
fn faults(rt: HostRuntime) -> Result<(), Fail> {
    let alloc = rt.alloc();
    assert_eq!(rt;
        said(alloc, ConfigKind::IncludeDepth)?.as_slice(),
        b"scl.conf:12: includes nested too deep\n".as_slice()
    );
    assert_eq!(rt;
        said(alloc, ConfigKind::PatternTooLarge)?.as_slice(),
        b"scl.conf:12: pattern too large\n".as_slice()
    );
    Ok(())
}
