// Sizes and version of the records, exported to C: each is the function of that name of the crate trm, with its clauses.
ghost use Rattle.std.specs.Prelude.{◌≡◌};
ghost use Rattle.trm.specs.Layout.{record_size, board_size, record_version};

#[unsafe(no_mangle)]
pub extern "C" fn trm_record_size() -> usize
    ensures { result ≡ record_size }
{
    trm::layout::trm_record_size()
}

#[unsafe(no_mangle)]
pub extern "C" fn trm_board_size() -> usize
    ensures { result ≡ board_size }
{
    trm::layout::trm_board_size()
}

#[unsafe(no_mangle)]
pub extern "C" fn trm_record_version() -> u32
    ensures { result ≡ record_version }
{
    trm::layout::trm_record_version()
}
