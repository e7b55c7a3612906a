// The worth of each value of a packed byte.
ghost use Rattle.std.specs.Prelude.{◌≡◌, [], ◌∷◌};
ghost use Rattle.codec.specs.Halves.{halves_of};
ghost use Rattle.codec.specs.Unpacking.{read_on, run_meaning};

// What the table has for a byte that has a half above 9: 255, as document 01 says.
const NO_WORTH: u8 = 255;

// Ten times the high half plus the low half, for each byte; NO_WORTH where a half is above 9.
static WORTHS: [u8; 256] = [
    0, 1, 2, 3, 4, 5, 6, 7, 8, 9, 255, 255, 255, 255, 255, 255, 10, 11, 12, 13, 14, 15, 16, 17, 18,
    19, 255, 255, 255, 255, 255, 255, 20, 21, 22, 23, 24, 25, 26, 27, 28, 29, 255, 255, 255, 255,
    255, 255, 30, 31, 32, 33, 34, 35, 36, 37, 38, 39, 255, 255, 255, 255, 255, 255, 40, 41, 42, 43,
    44, 45, 46, 47, 48, 49, 255, 255, 255, 255, 255, 255, 50, 51, 52, 53, 54, 55, 56, 57, 58, 59,
    255, 255, 255, 255, 255, 255, 60, 61, 62, 63, 64, 65, 66, 67, 68, 69, 255, 255, 255, 255, 255,
    255, 70, 71, 72, 73, 74, 75, 76, 77, 78, 79, 255, 255, 255, 255, 255, 255, 80, 81, 82, 83, 84,
    85, 86, 87, 88, 89, 255, 255, 255, 255, 255, 255, 90, 91, 92, 93, 94, 95, 96, 97, 98, 99, 255,
    255, 255, 255, 255, 255, 255, 255, 255, 255, 255, 255, 255, 255, 255, 255, 255, 255, 255, 255,
    255, 255, 255, 255, 255, 255, 255, 255, 255, 255, 255, 255, 255, 255, 255, 255, 255, 255, 255,
    255, 255, 255, 255, 255, 255, 255, 255, 255, 255, 255, 255, 255, 255, 255, 255, 255, 255, 255,
    255, 255, 255, 255, 255, 255, 255, 255, 255, 255, 255, 255, 255, 255, 255, 255, 255, 255, 255,
    255, 255, 255, 255, 255, 255, 255, 255, 255, 255, 255, 255, 255, 255, 255, 255, 255, 255, 255,
    255, 255, 255, 255, 255, 255,
];

// Ten times the high half of a packed byte plus its low half; none where a half is above 9.
#[tactic(auto, using(crate::proofs::WorthLaws::worths_right, crate::proofs::WorthLaws::worth_read))]
pub(crate) fn worth(byte: u8) -> Option<u8>
    ensures { run_meaning result ≡ read_on 0 (halves_of (byte ∷ [])) }
{
    let two = WORTHS[byte as usize];
    (two != NO_WORTH).then_some(two)
}
