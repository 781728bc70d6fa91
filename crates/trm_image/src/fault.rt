// The rows of the refusal table that can refuse an image, and their numbers, which the listing prints and the C interface returns.
// Paper: "Where calls are turned down", rows 1, 2, 3, 4 and 6.
// specs/Numbers.antt defines the number of each.
ghost use Rattle.std.specs.Prelude.{◌≡◌};
ghost use Rattle.trm_image.specs.Numbers.{number_of};

#[derive(Clone, Copy, Debug, PartialEq, Eq)]
pub enum Fault {
    Frame,
    Kind,
    Program,
    Store,
    LineBytes,
}

impl From<Fault> for u32 {
    ghost from_gives = { λ fault number. number ≡ number_of fault };

    fn from(fault: Fault) -> u32 {
        match fault {
            Fault::Frame => 1,
            Fault::Kind => 2,
            Fault::Program => 3,
            Fault::Store => 4,
            Fault::LineBytes => 6,
        }
    }
}

// Why an image is refused: a fault, and the byte offset where its record begins: "0 if too long or empty".
#[derive(Clone, Copy, Debug, PartialEq, Eq)]
pub struct Refusal {
    pub fault: Fault,
    pub at: usize,
}

impl Refusal {
    // Of the image as a whole, which is too long or empty.
    pub(crate) fn of_image(fault: Fault) -> Refusal
        ensures { result ≡ record { fault = fault; at = 0 } }
    {
        Refusal { fault, at: 0 }
    }
}
