// One clock on the parts of a record, in place, as a run of one line byte.
// Paper: "Later a second entry lends the record itself for one clock, with the same outcome".
// The scalars go by value; no array is copied.
ghost use Rattle.std.specs.Prelude.{◌≡◌};
ghost use Rattle.trm_reference.specs.Geometry.{paper_geometry};
ghost use Rattle.trm_core.specs.Clock.{clock_of};
ghost use Rattle.trm_core.specs.Refusals.{clock_refusal};
ghost use Rattle.trm_clock_laws.specs.Made.{made};
ghost use Rattle.trm_run_machine.specs.Machine.{record_of, parts};

use crate::inner::turns;
use trm_cache::record::Cache;
use trm_clock_laws::inner::outcome::Clocked;
use trm_core::record::Scalars;
use trm_run_phases::inner::going::Going;

pub fn one_clock(
    c: Scalars,
    program: &[u32],
    regs: &mut [u32; 16],
    cache: &mut Cache,
    store: &mut [u32],
    pins: u8,
    input: u32,
) -> Clocked
    requires { clock_refusal paper_geometry program.now (record_of (parts c regs.old cache.old)) store.old pins ≡ 0 }
    ensures { made result regs.new cache.new store.new
        ≡ clock_of paper_geometry program.now (record {
          machine = record_of (parts c regs.old cache.old);
          store = store.old;
        }) (record { line_byte = pins; input = input }) }
{
    cache.sized();
    let alone = [pins; 1];
    let inputs = [input; 1];
    let mut bytes = [0u8; 1];
    let mut outs = [0u32; 1];
    let began = Going {
        scalars: c,
        at: 0,
        finished: 0,
    };
    let g = turns::all_turns(
        began, program, regs, cache, store, &alone, &inputs, &mut bytes, &mut outs, false,
    );
    Clocked {
        scalars: g.scalars,
        byte: bytes[0],
        word: outs[0],
        finished: g.finished,
    }
}
