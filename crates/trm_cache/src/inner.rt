// The methods of the cache; a method in `inner` may have a `requires`.
// A line is `l`, 0-15.
pub mod bursts;
pub mod cache_lines;
pub mod switch_off;
