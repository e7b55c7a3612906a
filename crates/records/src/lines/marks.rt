// The marks that numbers in fields are printed and read back with (document 01: Print lines).
ghost use Rattle.std.specs.Prelude.{◌≡◌};
ghost use Rattle.decimal.specs.Answer.{pick};
ghost use Rattle.records.specs.Lines.Marks.{is_dropped, read_byte};

// The decimal mark, the mark between thousands, and the byte for suppressed zeros and thousands marks.
#[derive(Clone, Copy)]
pub(crate) struct Marks {
    pub decimal: u8,
    pub thousands: u8,
    pub filling: u8,
}

// Document 01's marks: point, comma and blank.
pub(crate) const DOCUMENT_MARKS: Marks = Marks {
    decimal: b'.',
    thousands: b',',
    filling: b' ',
};

// A byte that no text number has.
const NO_TEXT_BYTE: u8 = 0;

impl Marks {
    // Whether a byte of a field is dropped when the field is read back.
    #[tactic(auto, unfolding(crate::specs::Lines::Marks::is_dropped))]
    pub(crate) fn is_dropped(self, byte: u8) -> bool
        ensures { result ≡ is_dropped self byte }
    {
        byte == b' ' || byte == self.filling || byte == self.thousands
    }

    // What any other byte is read as: the decimal mark as the point, and a point that is no mark as no part of a text number.
    #[tactic(auto, unfolding(crate::specs::Lines::Marks::read_byte))]
    pub(crate) fn read_byte(self, byte: u8) -> u8
        ensures { result ≡ read_byte self byte }
    {
        if byte == self.decimal {
            b'.'
        } else if byte == b'.' {
            NO_TEXT_BYTE
        } else {
            byte
        }
    }

    // What stands for a comma: the thousands mark, or the filling byte where no digit stands before it.
    pub(crate) fn comma_byte(self, shown: bool) -> u8
        ensures { result ≡ pick shown self.thousands self.filling }
    {
        if shown { self.thousands } else { self.filling }
    }
}
