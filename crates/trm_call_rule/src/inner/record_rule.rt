// Row 5, the record rule, with a function for each named part.
// Paper: "The record holds phase and count: ..", "Phase 1 needs ..", row 5 of the table.
// The parts are those of trm_core's Rule; each stops at the first clause that fails. The counts of phases 1 and 4 are bounded by the
// table of base charges in trm_word.
ghost use Rattle.std.specs.Prelude.{◌≡◌, true, not, ◌&&◌, ◌<◌, ◌≤◌, get_or, eqb};
ghost use Rattle.trm_word.specs.Address.{store_length_ok};
ghost use Rattle.trm_reference.specs.Geometry.{paper_geometry};
ghost use Rattle.trm_reference.specs.Access.{is_load, to_memory, to_device};
ghost use Rattle.trm_reference.specs.Charge.{turns_cache_off};
ghost use Rattle.trm_cache.specs.Cache.{line_at, count_dirty};
ghost use Rattle.trm_core.specs.Record.{gathered, whole, product_at, remainder_at, quotient_at};
ghost use Rattle.trm_core.specs.Clock.{line_for, hits};
ghost use Rattle.trm_core.specs.Rule.{widths_ok, counts_ok, registers_ok, arithmetic_ok};
ghost use Rattle.trm_core.specs.Rule.{writeback_ok, refill_ok, wait_ok, due_ok, phase_ok};
ghost use Rattle.trm_core.specs.Rule.{marks_ok, line_ok, lines_ok, record_ok};

use crate::inner::access;
use crate::inner::access::Situation;
use trm_alu::inner::divide::Divider;
use trm_alu::inner::{divide, multiply};
use trm_cache::record::Cache;
use trm_clock_operands::inner::operands;
use trm_core::record::{Counts, Scalars};
use trm_word::inner::charge;

// The clock count has 32 bits, and no other count is above it.
#[tactic(auto, unfolding(trm_core::specs::Rule::counts_ok))]
fn counts_ok(k: Counts) -> bool
    ensures { result ≡ counts_ok k }
{
    k.clocks < 0x1_0000_0000
        && k.held <= k.clocks
        && k.refills <= k.clocks
        && k.writebacks <= k.clocks
}

// Phase 1, "1-32": the greatest count is one less than the base charge, "33: 32 steps, then the result".
#[tactic(auto, unfolding(trm_core::specs::Rule::arithmetic_ok))]
fn arithmetic_ok(w: u32, count: u64) -> bool
    ensures { result ≡ arithmetic_ok w count }
{
    if count < 1 || !access::is_stepped(w) {
        return false;
    }
    let charge = charge::base_charge((w / 0x4000 % 16) as usize);
    count < charge
}

// Whether the cache has a dirty line.
fn any_dirty(cache: &Cache) -> bool
    ensures { result ≡ not (eqb (count_dirty paper_geometry cache.now) 0) }
{
    let d = cache.dirty_lines();
    d.count != 0
}

impl Situation<'_> {
    // PC 12 bits, each flag 1, status 4.
    #[tactic(auto, unfolding(trm_core::specs::Rule::widths_ok))]
    fn widths_ok(&self) -> bool
        ensures { result ≡ widths_ok (gathered self.now.c self.now.regs.now) }
    {
        let c = self.c;
        c.pc < 4096 && c.n < 2 && c.z < 2 && c.c < 2 && c.v < 2 && c.status < 16
    }

    // The multiplier's register after k steps of the word at PC.
    #[tactic(auto, unfolding(trm_core::specs::Record::product_at))]
    fn product_at(&self, k: u64) -> u64
        ensures { result ≡ product_at self.now.w (gathered self.now.c self.now.regs.now) k }
    {
        if self.w / 0x4000 % 16 != 8 {
            return 0;
        }
        let a = operands::operand_a(self.c, self.regs, self.w);
        let b = operands::operand_b(self.c, self.regs, self.w);
        multiply::after(a, b, k)
    }

    // The divider's registers after k steps of the word at PC.
    #[tactic(auto, unfolding(trm_core::specs::Record::remainder_at, trm_core::specs::Record::quotient_at))]
    fn divider_at(&self, k: u64) -> Divider
        requires { k ≤ 32 }
        ensures { (result.rem ≡ remainder_at self.now.w (gathered self.now.c self.now.regs.now) k)
            × (result.quot ≡ quotient_at self.now.w (gathered self.now.c self.now.regs.now) k) }
    {
        if self.w / 0x4000 % 16 != 9 {
            return Divider { rem: 0, quot: 0 };
        }
        let a = operands::operand_a(self.c, self.regs, self.w);
        let b = operands::operand_b(self.c, self.regs, self.w);
        Divider::after(a, b, k)
    }

    // "a multiplier or divider register other than stated"; in phase 1 the count is at most 32 by the clause checked before.
    #[tactic(auto, unfolding(trm_core::specs::Rule::registers_ok))]
    fn registers_ok(&self) -> bool
        requires { self.now.c.running.phase ≡ 1 → self.now.c.running.count ≤ 32 }
        ensures { result ≡ registers_ok self.now.w self.now.c.running (gathered self.now.c self.now.regs.now) }
    {
        let r = self.c.running;
        if r.phase == 1 {
            let d = self.divider_at(r.count);
            return r.product == self.product_at(r.count)
                && r.remainder == d.rem
                && r.quotient == d.quot;
        }
        r.product == 0 && r.remainder == 0 && r.quotient == 0
    }

    // Phase 4, "1-5 for LD, 1-4 for ST": the greatest count is one less than the charge with the cache off, "6, 5", which is the base
    // charge and 4 more.
    #[tactic(auto, unfolding(trm_core::specs::Rule::wait_ok))]
    fn wait_ok(&self, count: u64) -> bool
        ensures { result ≡ wait_ok self.now.w self.now.n count (gathered self.now.c self.now.regs.now) }
    {
        if count < 1 || !access::without_cache(self.c, self.regs, self.w, self.n) {
            return false;
        }
        let uncached = charge::base_charge((self.w / 0x4000 % 16) as usize) + 4;
        count < uncached
    }

    // Phase 2 for an access: its line is full and dirty, and holds another block.
    fn evicts(&self) -> bool
        ensures { result ≡ ((line_for paper_geometry self.now.w self.now.n
            (gathered self.now.c self.now.regs.now) self.now.cache.now).full
            && (line_for paper_geometry self.now.w self.now.n (gathered self.now.c self.now.regs.now) self.now.cache.now).dirty
            && not (hits paper_geometry self.now.w self.now.n (gathered self.now.c self.now.regs.now) self.now.cache.now)) }
    {
        self.line_for_full() && self.line_for_dirty() && !self.hits()
    }

    // Phase 2, write-back.
    #[tactic(auto, unfolding(trm_core::specs::Rule::writeback_ok, trm_reference::specs::Geometry::burst))]
    fn writeback_ok(&self, count: u64) -> bool
        ensures { result ≡ writeback_ok paper_geometry self.now.w self.now.n count
            (gathered self.now.c self.now.regs.now) self.now.cache.now }
    {
        if count >= 10 {
            return false;
        }
        if access::to_memory(self.c, self.regs, self.w, self.n) {
            return self.evicts();
        }
        operands::turns_cache_off(self.c, self.regs, self.w) && any_dirty(self.cache)
    }

    // Phase 3, refill.
    #[tactic(auto, unfolding(trm_core::specs::Rule::refill_ok, trm_reference::specs::Geometry::burst))]
    fn refill_ok(&self, count: u64) -> bool
        ensures { result ≡ refill_ok paper_geometry self.now.w self.now.n count
            (gathered self.now.c self.now.regs.now) self.now.cache.now }
    {
        if count >= 10 {
            return false;
        }
        access::through_cache(self.c, self.regs, self.w, self.n) && !self.line_for_full()
    }

    // Phase 5 for 11 clearing status bit 3: no line is dirty.
    fn off_due(&self) -> bool
        ensures { result ≡ (turns_cache_off self.now.w (gathered self.now.c self.now.regs.now)
            && eqb (count_dirty paper_geometry self.now.cache.now) 0) }
    {
        operands::turns_cache_off(self.c, self.regs, self.w) && !any_dirty(self.cache)
    }

    // Phase 5 for LD from a device.
    #[tactic(auto, unfolding(trm_reference::specs::Access::is_access))]
    fn device_due(&self) -> bool
        ensures { result ≡ (is_load self.now.w && to_device self.now.w (gathered self.now.c self.now.regs.now) self.now.n) }
    {
        operands::is_load(self.w) && access::to_device(self.c, self.regs, self.w, self.n)
    }

    // Phase 5 for LD and ST with its block in the line.
    fn hit_due(&self) -> bool
        ensures { result ≡ (to_memory self.now.w (gathered self.now.c self.now.regs.now) self.now.n
            && hits paper_geometry self.now.w self.now.n (gathered self.now.c self.now.regs.now) self.now.cache.now) }
    {
        access::to_memory(self.c, self.regs, self.w, self.n) && self.hits()
    }

    // Phase 5, last clock due.
    #[tactic(auto, unfolding(trm_core::specs::Rule::due_ok))]
    fn due_ok(&self) -> bool
        ensures { result ≡ due_ok paper_geometry self.now.w self.now.n (gathered self.now.c self.now.regs.now) self.now.cache.now }
    {
        access::takes_branch(self.c, self.regs, self.w)
            || self.w / 0x4000 % 16 == 15
            || access::is_jump(self.w)
            || self.off_due()
            || self.device_due()
            || self.hit_due()
    }

    // Phase and count.
    #[tactic(auto, unfolding(trm_core::specs::Rule::phase_ok))]
    fn phase_ok(&self) -> bool
        ensures { result ≡ phase_ok paper_geometry self.now.w self.now.n self.now.c.running
            (gathered self.now.c self.now.regs.now) self.now.cache.now }
    {
        let count = self.c.running.count;
        match self.c.running.phase {
            0 => count == 0,
            1 => arithmetic_ok(self.w, count),
            2 => self.writeback_ok(count),
            3 => self.refill_ok(count),
            4 => self.wait_ok(count),
            5 => count == 0 && self.due_ok(),
            _ => false,
        }
    }
}

// Each of full and dirty has one bit.
#[tactic(auto, unfolding(trm_core::specs::Rule::marks_ok))]
fn marks_ok(cache: &Cache, l: usize) -> bool
    requires { l < 16 }
    ensures { result ≡ marks_ok cache.now l }
{
    cache.full[l] < 2 && cache.dirty[l] < 2
}

// A full line: the cache is on, its block belongs to this line and is inside the store.
#[tactic(auto, unfolding(trm_core::specs::Rule::line_ok, trm_reference::specs::Geometry::line_of))]
fn full_ok(on: bool, n: u64, cache: &Cache, l: usize) -> bool
    requires { (l < 16) × ((line_at paper_geometry cache.now l).full ≡ true) }
    ensures { result ≡ line_ok paper_geometry on n l (line_at paper_geometry cache.now l) }
{
    let b = cache.line_block(l);
    on && b % 16 == l as u64 && b * 8 + 8 <= n
}

// An empty line is clean and has block 0.
fn empty_ok(cache: &Cache, l: usize) -> bool
    requires { l < 16 }
    ensures { result ≡ (eqb (get_or cache.now.dirty l 0) 0 && eqb (get_or cache.now.block l 0) 0) }
{
    cache.dirty[l] == 0 && cache.block[l] == 0
}

// One line of the cache: its marks, and the conditions on a full or an empty line. Empty lines go first, since they need fewest tests.
fn good_line(on: bool, n: u64, cache: &Cache, l: usize) -> bool
    requires { l < 16 }
    ensures { result ≡ (marks_ok cache.now l && line_ok paper_geometry on n l (line_at paper_geometry cache.now l)) }
{
    if cache.full[l] == 0 {
        return empty_ok(cache, l);
    }
    marks_ok(cache, l) && full_ok(on, n, cache, l)
}

// Every line of the cache.
#[tactic(auto, unfolding(trm_core::specs::Rule::lines_ok))]
fn lines_ok(on: bool, n: u64, cache: &Cache) -> bool
    ensures { result ≡ lines_ok paper_geometry on n cache.now }
{
    for l in 0..16 {
        if !good_line(on, n, cache, l) {
            return false;
        }
    }
    true // each line is good
}

// Row 5 as a whole.
#[tactic(auto, unfolding(trm_core::specs::Rule::record_ok))]
pub fn record_ok(c: Scalars, program: &[u32], regs: &[u32; 16], cache: &Cache, n: u64) -> bool
    requires { store_length_ok n ≡ true }
    ensures { result ≡ record_ok paper_geometry program.now n (whole c regs.now cache.now) }
{
    let w = operands::word_at(program, c.pc);
    let x = Situation {
        c,
        regs,
        cache,
        w,
        n,
    };
    let on = operands::cache_on(c, regs);
    x.widths_ok()
        && x.phase_ok()
        && x.registers_ok()
        && counts_ok(c.counts)
        && lines_ok(on, n, cache)
}
