// The rows of the refusal table (row 5 is in trm_call_rule), and for each call its rows in the table's order.
// `c` are the record's scalars, `regs` its registers, `full`, `dirty`, `block` and `words` its cache.
// Each contract cites a definition of trm_core; a function here may have a `requires`.
pub mod call_refusals;
pub mod record_rows;
pub mod refusal_number;
pub mod table_rows;
