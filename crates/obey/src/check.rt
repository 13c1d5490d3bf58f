// A field check.
ghost use Rattle.std.specs.Prelude.{◌≡◌};
ghost use Rattle.meaning.specs.Bench.{full};
ghost use Rattle.meaning.specs.Call.{check, step};
ghost use Rattle.machine.specs.Machine.{machine};
ghost use Rattle.machine.specs.Consistent.{unfit};
ghost use Rattle.promise.specs.Obeyed.{Makes};

use crate::seated;
use acts::looked;
use answers::refused;
use answers::slots::reader_slot;
use promise::Called;
use state::State;
use units::READERS;
use units::stamp::Stamp;

pub fn check(s: State, node: u8, t: Stamp, clock: u32, store: &mut [u16], plaques: &[u8]) -> Called
    requires { unfit full (machine s store.old plaques.now) ≡ 0 }
    ensures { Makes full (λ g. step full g (check node t clock)) s store.old plaques.now result
        store.new plaques.now }
{
    if !t.is_valid() {
        return refused(s, 3);
    }
    let i = reader_slot(node);
    if READERS <= i {
        return refused(s, 7);
    }
    let own = s.nodes[i];
    let x = s.readers[i];
    let held = s.held;
    let r = looked(node, own, x, held, t, clock, store, plaques);
    seated(s, i, r)
}
