// What the exported calls use; a function here may have a `requires`, which its callers meet.
// Paper: "Later a second entry lends the record itself for one clock, with the same outcome".
// `placed`: one clock on the parts of a record, for the lent entry; `empty`: the record of a refused reset.
pub mod empty;
pub mod placed;
