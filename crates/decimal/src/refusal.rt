// Refusals (document 01: When a call says no; document 02 adds 14 to 18): every layer's reasons in one table, which a caller matches on.
ghost use Rattle.std.specs.Prelude.{◌≡◌};
ghost use Rattle.decimal.specs.Answer.{reason_number};

use std::error::Error;
use std::fmt;

// Why a call was refused. Each reason is its number in the document's table.
#[derive(Clone, Copy, Debug, PartialEq, Eq, Hash)]
pub enum Reason {
    // Not an image.
    NotAnImage = 1,
    // More than PRECISION # signs.
    TooManyDigits = 2,
    // A number not in normal form.
    NotNormal = 3,
    // The number exceeds the image.
    Exceeds = 4,
    // An exponent outside its limits.
    ExponentOutside = 5,
    // An answer longer than the buffer, or than what follows the used length.
    NoRoom = 6,
    // A half byte outside the rules.
    BadHalf = 7,
    // Not a text number.
    NotText = 8,
    // Elements, but no field.
    NoField = 9,
    // A count or a line's length outside its limits, or a list of another length than the contents.
    WrongCount = 10,
    // A used length past the buffer, bytes that end inside the contents or go on behind one lent alone, or a body of another length, a last
    // one included.
    WrongLength = 11,
    // No record of this number.
    NoRecord = 12,
    // A text's start and length run past its lent bytes.
    TextOutside = 13,
    // A position is below the one before it.
    PositionsFall = 14,
    // A record's first column is below that of the record before it.
    RecordsFall = 15,
    // The first column is signed or exponential.
    WrongKind = 16,
    // The contents of two files differ.
    ContentsDiffer = 17,
    // A file has another used length, or bodies of another size, than the place that was reserved for a record.
    ReservationDiffers = 18,
}

impl Reason {
    // The reason's number in the document's table.
    pub fn number(self) -> u8
        ensures { result ≡ reason_number self }
    {
        self as u8
    }
}

// Why a call was refused, and the place, counted from 0.
#[derive(Clone, Copy, Debug, PartialEq, Eq, Hash)]
pub struct Refusal {
    pub reason: Reason,
    pub place: usize,
}

impl Refusal {
    // The answer is longer than the buffer.
    pub const NO_ROOM: Refusal = Refusal {
        reason: Reason::NoRoom,
        place: 0,
    };

    // A count is outside its limits.
    pub const WRONG_COUNT: Refusal = Refusal {
        reason: Reason::WrongCount,
        place: 0,
    };

    // Bytes are of another length.
    pub const WRONG_LENGTH: Refusal = Refusal {
        reason: Reason::WrongLength,
        place: 0,
    };
}

impl fmt::Display for Refusal {
    // refused, the number and the place, parted by one blank each.
    fn fmt<W: fmt::Write>(&self, f: &mut fmt::Formatter<W>) -> fmt::Result {
        write!(f, "refused {} {}", self.reason.number(), self.place)
    }
}

impl Error for Refusal {}
