// What a C program can ask before it uses a record or a board: their sizes in bytes, and the version that this library knows.
// Paper: nothing; later requests change the record.
// A size is proved equal to that of the declared type as the compiler lays it out.
ghost use Rattle.std.specs.Prelude.{◌≡◌};
ghost use Rattle.trm.specs.Layout.{record_size, board_size, record_version};

pub fn trm_record_size() -> usize
    ensures { result ≡ record_size }
{
    768
}

pub fn trm_board_size() -> usize
    ensures { result ≡ board_size }
{
    832
}

pub fn trm_record_version() -> u32
    ensures { result ≡ record_version }
{
    3
}
