// The first clock of a run whose answer byte shows a device written.
// Paper: "the watch names a clock, from 0, whose byte shows that device written, or none if there is no such clock".
// The contract allows any of several matching clocks; this code finds the first.
ghost use Rattle.std.specs.Prelude.{◌≡◌};
ghost use Rattle.trm_core.specs.Observe.{shows_write, SightingHolds};

// Whether the byte shows a write to the device: bit 1 is set, and bits 2-7 are the device. One comparison tests both (P-34).
#[tactic(auto, using(crate::proofs::Laws::Loops::shows_is))]
fn shows_write(device: u32, byte: u8) -> bool
    ensures { result ≡ shows_write device byte }
{
    u64::from(byte) / 2 == u64::from(device) * 2 + 1
}

// The first clock that writes the device, or none.
pub fn find_write(bytes: &[u8], device: u32) -> Option<u64>
    ensures { SightingHolds bytes.now device result }
{
    let first = bytes.iter().position(|b| shows_write(device, *b));
    first.map(|k| k as u64)
}
