// Two threads and one till.
ghost use Rattle.std.specs.Prelude.{◌≡◌, ◌≤◌, ◌<◌, ◌+◌, ◌-◌, ◌^◌, ◌%◌, length};
ghost use Rattle.sg_booth.specs.Desks.{IsDeskOf};

use sg_booth::{Booth, Desk, Office};
use std::alloc::Global;
use std::sync::Wait;
use std::test::Fail;
use std::thread::{Threads, join};

/// What lies in a till. It takes a sum in, and tells what lay in it before.
pub struct Till {
    sum: u64,
    calls: u64,
}

impl Office for Till {
    type Call = u64;

    type Reply = u64;

    ghost step = { λ old call reply new. (reply ≡ old.sum)
        × (new.sum ≡ (old.sum + call) % 2 ^ 64) };

    ghost may = { λ till call. call < 256 };

    ghost room = { λ till. 2 ^ 54 - till.calls };

    fn serve(&mut self, _alloc: Global, call: u64) -> u64 {
        let before = self.sum;
        self.calls += 1;
        self.sum = self.sum.wrapping_add(call);
        before
    }
}

fn fill<R: Wait>(
    rt: &R,
    alloc: Global,
    booth: &Booth<Till>,
    mut desk: Desk<Till>,
    times: u64,
) -> Desk<Till>
    requires desk { IsDeskOf booth.now desk }
    requires left { times ≤ desk.left }
    ensures desk { IsDeskOf booth.entry.now result }
    ensures left { result.left + times ≡ desk.left }
    ensures own { length result.own ≡ length desk.own + times }
{
    for _ in 0..times {
        booth.turn(rt, alloc, &mut desk, 3);
    }
    desk
}

fn fill_both<R: Threads + Wait + Sync>(
    rt: &R,
    alloc: Global,
    booth: &Booth<Till>,
    mut desk: Desk<Till>,
) -> Desk<Till>
    requires desk { IsDeskOf booth.now desk }
    requires left { desk.left ≡ 2001 }
    ensures desk { IsDeskOf booth.entry.now result }
    ensures left { result.left ≡ 1 }
{
    let other = booth.split(&mut desk, 1000);
    let (mut one, two) = join(
        rt,
        || -> Desk<Till>
            requires { IsDeskOf booth.now desk × (desk.left ≡ 1001) }
            ensures { IsDeskOf booth.entry.now result × (result.left ≡ 1) }
        { fill(rt, alloc, booth, desk, 1000) },
        || -> Desk<Till>
            requires { IsDeskOf booth.now other × (other.left ≡ 1000) }
            ensures { IsDeskOf booth.entry.now result × (result.left ≡ 0) }
        { fill(rt, alloc, booth, other, 1000) },
    );
    booth.join(&mut one, two);
    one
}

// A desk takes three turns, leaves a receipt of them, and is dropped.
fn leave<R: Wait>(rt: &R, alloc: Global, booth: &Booth<Till>, desk: &mut Desk<Till>)
    requires desk { IsDeskOf booth.now desk.old }
    requires left { 4 < desk.old.left }
    ensures desk { IsDeskOf booth.entry.now desk.new }
    ensures left { desk.new.left + 4 ≡ desk.old.left }
{
    let other = booth.split(desk, 4);
    let mut other = fill(rt, alloc, booth, other, 3);
    let receipt = booth.receipt(&mut other);
    booth.join(desk, receipt);
}

#[test]
fn a_dropped_desk_leaves_its_calls(rt: HostRuntime) -> Result<(), Fail> {
    let till = Till { sum: 0, calls: 0 };
    match Booth::new(rt.alloc(), till, 9) {
        Ok((booth, mut desk)) => {
            leave(&rt, rt.alloc(), &booth, &mut desk);
            let left = desk.left();
            let Till { sum, calls } = booth.close(&rt, desk);
            assert!(rt; left == 5 && sum == 9 && calls == 3);
            Ok(())
        }
        Err((Till { sum: _, calls: _ }, failed)) => Err(failed.into()),
    }
}

#[test]
fn two_threads_fill_a_till(rt: HostRuntime) -> Result<(), Fail> {
    let till = Till { sum: 0, calls: 0 };
    match Booth::new(rt.alloc(), till, 2001) {
        Ok((booth, desk)) => {
            let desk = fill_both(&rt, rt.alloc(), &booth, desk);
            let left = desk.left();
            let Till { sum, calls } = booth.close(&rt, desk);
            assert!(rt; left == 1 && sum == 6000 && calls == 2000);
            Ok(())
        }
        Err((Till { sum: _, calls: _ }, failed)) => Err(failed.into()),
    }
}
