// The second entry of the clock: the caller lends the record, which is changed in place.
// Paper: "Later a second entry lends the record itself for one clock, with the same outcome".
// It lends the record's registers and cache to `placed::clock` and stores the scalars that this returns (D-28).
ghost use Rattle.trm.specs.Promises.{ClockNumbered, with_record};

use crate::exported_answers::LentAnswer;
use trm_run_machine::machine::Machine;

// One clock, in place.
pub fn trm_clock(
    m: &mut Machine,
    program: &[u32],
    store: &mut [u32],
    pins: u8,
    input: u32,
) -> LentAnswer
    ensures { ClockNumbered m.old program.now store.old pins input (with_record m.new result) store.new }
{
    let outcome = crate::inner::placed::clock(
        m.scalars,
        program,
        &mut m.regs,
        &mut m.cache,
        store,
        pins,
        input,
    );
    match outcome {
        Ok(t) => {
            m.scalars = t.scalars;
            LentAnswer {
                number: 0,
                byte: t.byte,
                word: t.word,
                finished: t.finished,
            }
        }
        Err(refused) => LentAnswer {
            number: u32::from(refused),
            byte: 0,
            word: 0,
            finished: 0,
        },
    }
}
