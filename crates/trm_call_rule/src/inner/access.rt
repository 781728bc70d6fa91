// Which row of the clock table applies to the word at PC, and the cache line of its access.
// Paper: "12 or 13 to memory", "cache on and off", "operation 8 or 9", "14 taken", "11 with bit 10 set", "its block in the line".
// Each test is defined in trm_reference, or in trm_core if it depends on the cache.
ghost use Rattle.std.specs.Prelude.{◌≡◌, true, ◌<◌};
ghost use Rattle.trm_word.specs.Address.{store_length_ok};
ghost use Rattle.trm_reference.specs.Geometry.{paper_geometry};
ghost use Rattle.trm_reference.specs.Access.{is_memory, is_access, place_of_word, to_memory, to_device, target_block, target_line};
ghost use Rattle.trm_reference.specs.Charge.{is_stepped, is_jump, takes_branch, through_cache, without_cache};
ghost use Rattle.trm_core.specs.Record.{gathered};
ghost use Rattle.trm_core.specs.Clock.{line_for, hits};

use trm_cache::record::Cache;
use trm_clock_operands::inner::operands;
use trm_core::record::Scalars;
use trm_word::inner::address::Place;

// What row 5 looks at: the record's scalars, registers and cache, the word at PC, and the store's length, which row 4 has accepted.
#[derive(Clone, Copy)]
pub struct Situation<'a> {
    pub c: Scalars,
    pub regs: &'a [u32; 16],
    pub cache: &'a Cache,
    pub w: u32,
    pub n: u64,
    pub ghost legal: { store_length_ok n ≡ true },
}

// Whether a place is in the store and not a device.
#[tactic(auto, unfolding(trm_reference::specs::Access::is_memory))]
fn is_memory(place: Place) -> bool
    ensures { result ≡ is_memory place }
{
    matches!(place, Place::Memory(_))
}

// 12 and 13 to memory.
#[tactic(auto, unfolding(trm_reference::specs::Access::to_memory))]
pub fn to_memory(c: Scalars, regs: &[u32; 16], w: u32, n: u64) -> bool
    requires { store_length_ok n ≡ true }
    ensures { result ≡ to_memory w (gathered c regs.now) n }
{
    operands::is_access(w) && is_memory(operands::place_of_word(c, regs, w, n))
}

// 12 and 13 to a device; the caller has tested that w is one of the two.
#[tactic(auto, unfolding(trm_reference::specs::Access::to_device))]
pub fn to_device(c: Scalars, regs: &[u32; 16], w: u32, n: u64) -> bool
    requires { (store_length_ok n ≡ true) × (is_access w ≡ true) }
    ensures { result ≡ to_device w (gathered c regs.now) n }
{
    !is_memory(operands::place_of_word(c, regs, w, n))
}

// The block of the access.
#[tactic(auto, unfolding(trm_reference::specs::Access::target_block, trm_reference::specs::Geometry::block_of))]
pub fn target_block(c: Scalars, regs: &[u32; 16], w: u32, n: u64) -> u64
    requires { store_length_ok n ≡ true }
    ensures { result ≡ target_block paper_geometry w (gathered c regs.now) n }
{
    operands::target_of(c, regs, w, n) / 8
}

// The line of the access.
#[tactic(auto, unfolding(trm_reference::specs::Access::target_line, trm_reference::specs::Geometry::line_of))]
pub fn target_line(c: Scalars, regs: &[u32; 16], w: u32, n: u64) -> usize
    requires { store_length_ok n ≡ true }
    ensures { (result ≡ target_line paper_geometry w (gathered c regs.now) n) × (result < 16) }
{
    (target_block(c, regs, w, n) % 16) as usize
}

// 12 and 13 to memory with the cache on.
#[tactic(auto, unfolding(trm_reference::specs::Charge::through_cache))]
pub fn through_cache(c: Scalars, regs: &[u32; 16], w: u32, n: u64) -> bool
    requires { store_length_ok n ≡ true }
    ensures { result ≡ through_cache w (gathered c regs.now) n }
{
    to_memory(c, regs, w, n) && operands::cache_on(c, regs)
}

// 12 and 13 to memory with the cache off.
#[tactic(auto, unfolding(trm_reference::specs::Charge::without_cache))]
pub fn without_cache(c: Scalars, regs: &[u32; 16], w: u32, n: u64) -> bool
    requires { store_length_ok n ≡ true }
    ensures { result ≡ without_cache w (gathered c regs.now) n }
{
    to_memory(c, regs, w, n) && !operands::cache_on(c, regs)
}

// 8 and 9, which have steps.
#[tactic(auto, unfolding(trm_reference::specs::Charge::is_stepped))]
pub fn is_stepped(w: u32) -> bool
    ensures { result ≡ is_stepped w }
{
    matches!(w / 0x4000 % 16, 8 | 9)
}

// 11 with bit 10 set.
#[tactic(auto, unfolding(trm_reference::specs::Charge::is_jump))]
pub fn is_jump(w: u32) -> bool
    ensures { result ≡ is_jump w }
{
    w / 0x4000 % 16 == 11 && w / 1024 % 2 == 1
}

// 14 taken.
#[tactic(auto, unfolding(trm_reference::specs::Charge::takes_branch))]
pub fn takes_branch(c: Scalars, regs: &[u32; 16], w: u32) -> bool
    ensures { result ≡ takes_branch w (gathered c regs.now) }
{
    w / 0x4000 % 16 == 14 && operands::branch_taken(c, regs, w)
}

impl Situation<'_> {
    // Whether the line of the access is full.
    #[tactic(auto, unfolding(trm_core::specs::Clock::line_for))]
    pub fn line_for_full(&self) -> bool
        ensures { result ≡ (line_for paper_geometry self.now.w self.now.n
            (gathered self.now.c self.now.regs.now) self.now.cache.now).full }
    {
        self.cache
            .line_full(target_line(self.c, self.regs, self.w, self.n))
    }

    // Whether the line of the access is dirty.
    #[tactic(auto, unfolding(trm_core::specs::Clock::line_for))]
    pub fn line_for_dirty(&self) -> bool
        ensures { result ≡ (line_for paper_geometry self.now.w self.now.n
            (gathered self.now.c self.now.regs.now) self.now.cache.now).dirty }
    {
        self.cache
            .line_dirty(target_line(self.c, self.regs, self.w, self.n))
    }

    // Whether the line of the access holds its block.
    #[tactic(auto, unfolding(trm_core::specs::Clock::hits, trm_core::specs::Clock::line_for))]
    pub fn hits(&self) -> bool
        ensures { result ≡ hits paper_geometry self.now.w self.now.n (gathered self.now.c self.now.regs.now) self.now.cache.now }
    {
        self.cache.line_holds(
            target_line(self.c, self.regs, self.w, self.n),
            target_block(self.c, self.regs, self.w, self.n),
        )
    }
}
