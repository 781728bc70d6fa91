// The methods of the machine record: a run; one clock; a clock that is a multiplier or divider step, or takes an interrupt.
// Paper: "Methods on the machine record with mut self: .. each handing the record back".
// Each lends the record's registers and cache to the function on its parts, and stores the scalars that come back.
ghost use Rattle.std.specs.Prelude.{◌≡◌, true, ◌+◌, length};
ghost use Rattle.trm_word.specs.Fields.{operation};
ghost use Rattle.trm_reference.specs.Geometry.{paper_geometry};
ghost use Rattle.trm_reference.specs.Interrupt.{interrupted};
ghost use Rattle.trm_core.specs.Record.{gathered, whole, ended, advanced, stepping};
ghost use Rattle.trm_core.specs.Clock.{clock_of};
ghost use Rattle.trm_core.specs.Refusals.{clock_refusal, run_refusal};
ghost use Rattle.trm_core.specs.Rule.{widths_ok, counts_ok};
ghost use Rattle.trm_core.specs.Run.{run_of};
ghost use Rattle.trm_clock_scalars.specs.Steps.{Steps};
ghost use Rattle.trm_run_machine.specs.Machine.{record_of, clocked, ran_to};

use crate::clock_answer::Clock;
use crate::inner::next_clock::Stepper;
use crate::inner::{next_clock, one_clock, turns};
use crate::machine::Machine;
use trm_clock_operands::inner::operands;
use trm_clock_scalars::inner::{interrupt, scalars, steps};
use trm_run_phases::inner::going::Going;

// The record after a run, and the number of instructions finished.
#[derive(Clone, Copy)]
pub struct Finished {
    pub machine: Machine,
    pub finished: u64,
}

impl Machine {
    // A run: one clock for each line byte. The answer buffers are cleared first; only a clock with an answer writes to them (D-58).
    pub fn run(
        mut self,
        program: &[u32],
        store: &mut [u32],
        pins: &[u8],
        inputs: &[u32],
        bytes: &mut [u8],
        words: &mut [u32],
    ) -> Finished
        requires { run_refusal paper_geometry program.now (record_of self) store.old pins.now inputs.now bytes.old
            words.old ≡ 0 }
        ensures { ran_to result (length pins.now) store.new bytes.new words.new
            ≡ run_of paper_geometry program.now (record { machine = record_of self; store = store.old })
            pins.now inputs.now }
    {
        bytes.fill(0);
        words.fill(0);
        let began = Going {
            scalars: self.scalars,
            at: 0,
            finished: 0,
        };
        let g = turns::all_turns(
            began,
            program,
            &mut self.regs,
            &mut self.cache,
            store,
            pins,
            inputs,
            bytes,
            words,
            false,
        );
        self.scalars = g.scalars;
        Finished {
            machine: self,
            finished: g.finished,
        }
    }

    // One clock. Taking an interrupt, and a step of the multiplier or the divider, have methods of their own (D-20).
    pub fn clock(mut self, program: &[u32], store: &mut [u32], pins: u8, input: u32) -> Clock
        requires { clock_refusal paper_geometry program.now (record_of self) store.old pins ≡ 0 }
        ensures { clocked result store.new
            ≡ clock_of paper_geometry program.now (record { machine = record_of self; store = store.old })
            (record { line_byte = pins; input = input }) }
    {
        let c = self.scalars;
        if let Some(to) = next_clock::interrupt_now(c, pins) {
            return next_clock::quiet(self.acknowledge(to));
        }
        let w = operands::word_at(program, c.pc);
        match next_clock::unit_now(c, w, pins) {
            Some(Stepper::Multiplier) => next_clock::quiet(self.multiplier_step(w)),
            Some(Stepper::Divider) => next_clock::quiet(self.divider_step(w)),
            None => self.other_clock(program, store, pins, input),
        }
    }

    // Any clock, on the record's parts.
    fn other_clock(mut self, program: &[u32], store: &mut [u32], pins: u8, input: u32) -> Clock
        requires { clock_refusal paper_geometry program.now (record_of self) store.old pins ≡ 0 }
        ensures { clocked result store.new
            ≡ clock_of paper_geometry program.now (record { machine = record_of self; store = store.old })
            (record { line_byte = pins; input = input }) }
    {
        let t = one_clock::one_clock(
            self.scalars,
            program,
            &mut self.regs,
            &mut self.cache,
            store,
            pins,
            input,
        );
        self.scalars = t.scalars;
        Clock {
            machine: self, // as the clock leaves it
            byte: t.byte,
            word: t.word,
            finished: t.finished,
        }
    }

    // A clock that is one step of the multiplier, for the word w at PC.
    pub fn multiplier_step(mut self, w: u32) -> Machine
        requires { Steps w self.scalars.running (gathered self.scalars self.regs) × (operation w ≡ 8)
            × (counts_ok self.scalars.counts ≡ true) }
        ensures { record_of result ≡ whole (advanced self.scalars
            (stepping w (gathered self.scalars self.regs) (self.scalars.running.count + 1)) 0 0) self.regs self.cache }
    {
        let c = self.scalars;
        let a = operands::operand_a(c, &self.regs, w);
        let b = operands::operand_b(c, &self.regs, w);
        let running = steps::multiplier_step(c.running, a, b);
        self.scalars = scalars::advance(c, running, 0, 0); // one clock more
        self
    }

    // A clock that is one step of the divider, for the word w at PC.
    pub fn divider_step(mut self, w: u32) -> Machine
        requires { Steps w self.scalars.running (gathered self.scalars self.regs) × (operation w ≡ 9)
            × (counts_ok self.scalars.counts ≡ true) }
        ensures { record_of result ≡ whole (advanced self.scalars
            (stepping w (gathered self.scalars self.regs) (self.scalars.running.count + 1)) 0 0) self.regs self.cache }
    {
        let c = self.scalars;
        let a = operands::operand_a(c, &self.regs, w);
        let b = operands::operand_b(c, &self.regs, w);
        let running = steps::divider_step(c.running, a, b);
        self.scalars = scalars::advance(c, running, 0, 0); // a clock more
        self
    }

    // A clock that takes the interrupt to the PC `to`, with nothing in flight.
    pub fn acknowledge(mut self, to: u64) -> Machine
        requires { (widths_ok (gathered self.scalars self.regs) ≡ true) × (counts_ok self.scalars.counts ≡ true)
            × (self.scalars.running.phase ≡ 0) }
        ensures { record_of result ≡ whole (ended self.scalars (interrupted (gathered self.scalars self.regs) to))
            (interrupted (gathered self.scalars self.regs) to).regs self.cache }
    {
        self.scalars = interrupt::take_interrupt(self.scalars, &mut self.regs, to);
        self
    }
}
