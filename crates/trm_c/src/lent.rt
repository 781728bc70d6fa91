// The clock on a lent record, exported to C: it is the function of that name of the crate trm, with its clauses.
ghost use Rattle.trm.specs.Promises.{ClockNumbered, with_record};

use trm::exported_answers::LentAnswer;
use trm_run_machine::machine::Machine;

// One clock, in place.
#[unsafe(no_mangle)]
pub extern "C" fn trm_clock(
    m: &mut Machine,
    program: &[u32],
    store: &mut [u32],
    pins: u8,
    input: u32,
) -> LentAnswer
    ensures { ClockNumbered m.old program.now store.old pins input
        (with_record m.new result) store.new }
{
    trm::lent::trm_clock(m, program, store, pins, input)
}
