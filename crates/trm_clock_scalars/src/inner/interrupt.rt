// The line byte: stall, the choice of the interrupt that a clock takes, and taking it.
// Paper: "takes an interrupt if the mode is 0 and an enabled line is high, line 0 before line 1: bank 1's R7 := NZCV in bits 31-28,
// zeros, PC in bits 11-0; mode 1; PC 2 or 3". By the record rule the word saved in R7 fits 32 bits.
ghost use Rattle.std.specs.Prelude.{◌≡◌, true, [], ◌<◌, ◌≤◌};
ghost use Rattle.trm_reference.specs.Visible.{with_mode};
ghost use Rattle.trm_reference.specs.Interrupt.{stalled, interrupt_raised, interrupt_chosen, saved_word, interrupted};
ghost use Rattle.trm_core.specs.Record.{gathered, ended};
ghost use Rattle.trm_core.specs.Rule.{widths_ok, counts_ok};

use crate::inner::scalars;
use trm_core::record::Scalars;

// Stall, bit 2 of the line byte.
#[tactic(auto, unfolding(trm_reference::specs::Interrupt::stalled))]
pub fn is_stalled(pins: u8) -> bool
    ensures { result ≡ stalled pins }
{
    pins / 4 % 2 == 1
}

// An interrupt line is enabled and high.
#[tactic(auto, unfolding(trm_reference::specs::Interrupt::interrupt_raised))]
fn is_raised(line: u32, status: u64, pins: u8) -> bool
    requires { line ≤ 1 }
    ensures { result ≡ interrupt_raised line status pins }
{
    (status >> line) % 2 == 1 && (pins >> line) % 2 == 1
}

// The PC of the interrupt taken, 2 or 3; 0 if none is taken.
// A number and no Option, as in the definition that both machines cite; a loop over clocks then tests one register.
#[tactic(auto, unfolding(trm_reference::specs::Interrupt::interrupt_chosen))]
pub fn interrupt_chosen(status: u64, pins: u8) -> u64
    ensures { (result ≡ interrupt_chosen status pins) × (result < 4) }
{
    if status / 4 % 2 == 1 {
        return 0;
    }
    if is_raised(0, status, pins) {
        2
    } else if is_raised(1, status, pins) {
        3
    } else {
        0
    }
}

// The status with its mode bit replaced.
#[tactic(auto, unfolding(trm_reference::specs::Visible::with_mode))]
pub fn with_mode(mode: u64, status: u64) -> u64
    requires { mode ≤ 1 }
    ensures { result ≡ with_mode mode status }
{
    status / 8 % 2 * 8 + mode * 4 + status % 4
}

// The word saved in bank 1's R7: flags and PC.
#[tactic(auto, unfolding(trm_reference::specs::Interrupt::saved_word, trm_core::specs::Rule::widths_ok))]
fn saved_word(c: Scalars) -> u32
    requires { widths_ok (gathered c []) ≡ true }
    ensures { result ≡ saved_word (gathered c []) }
{
    (c.n * 0x8000_0000 + c.z * 0x4000_0000 + c.c * 0x2000_0000 + c.v * 0x1000_0000 + c.pc) as u32
}

// The clock that takes the interrupt.
#[tactic(auto, unfolding(trm_reference::specs::Interrupt::interrupted, trm_reference::specs::Interrupt::saved_word))]
pub fn take_interrupt(c: Scalars, regs: &mut [u32; 16], to: u64) -> Scalars
    requires { (widths_ok (gathered c regs.old) ≡ true) × (counts_ok c.counts ≡ true) }
    ensures { (result ≡ ended c (interrupted (gathered c regs.old) to))
        × (regs.new ≡ (interrupted (gathered c regs.old) to).regs) }
{
    regs[15] = saved_word(c);
    Scalars {
        pc: to,
        status: with_mode(1, c.status),
        ..scalars::settle(c)
    }
}
